// The rows of a coefficient table image (02, section 1): where the table of a family and a degree stands.
#![tactic(auto)]

ghost use Rattle.std.specs.Prelude.{◌≡◌, ◌+◌, ◌*◌, ◌≤◌, length};
ghost use Rattle.answers.specs.Says.{answer_says};
ghost use Rattle.image_reading.specs.Reading.{number_of_family, find_row, number_says, table_at, row_says};

use answers::Refusal;
use little_endian::{four, wide};
use words::Family;

// A table of an image: its alphabet, the place of its body, and how many entries that has. Anyone may make one up.
#[derive(Clone, Copy)]
pub struct Table {
    pub alphabet: u64,
    pub offset: u64,
    pub entries: u64,
}

// The byte that stands for a family: 0 Forbidden, 1 Allowed.
fn number_of(family: Family) -> u64
    ensures { result ≡ number_of_family family }
{
    match family {
        Family::Forbidden => 0,
        Family::Allowed => 1,
    }
}

// The row, of the first t, that has the family f and the degree k: 12 if none has.
pub fn find(s: &[u8], t: u64, f: u64, k: u64) -> Result<u64, Refusal>
    requires { (t ≤ 64) × (4 + 12 * t ≤ length s.now) }
    ensures { answer_says result ≡ find_row s.now f k t }
{
    for i in (0..t).rev() {
        let j = (4 + 12 * i) as usize;
        if wide(s[j]) == f {
            if wide(s[j + 1]) == k {
                return Ok(i);
            }
        }
    }
    Err(Refusal::NoSuchTable)
}

// The number of the row of a family and a degree: 11 for a bad image, 12 if no table has them.
fn numbered(image: &[u8], family: Family, k: u64) -> Result<u64, Refusal>
    ensures { answer_says result ≡ number_says image.now family k }
{
    let t = image_check::check(image)?;
    find(image, t, number_of(family), k)
}

// The table that row i names.
fn named(s: &[u8], i: u64) -> Table
    requires { 4 + 12 * i + 12 ≤ length s.now }
    ensures { result ≡ table_at s.now i }
{
    let at = 4 + 12 * i;
    let j = at as usize;
    let alphabet = wide(s[j + 2]);
    let offset = four(s, at + 4);
    let entries = four(s, at + 8);
    Table {
        alphabet,
        offset,
        entries,
    }
}

// The table of a family and a degree, which may be any number: 11 for a bad image, 12 if no table has them.
pub fn row(image: &[u8], family: Family, k: u64) -> Result<Table, Refusal>
    ensures { answer_says result ≡ row_says image.now family k }
{
    let i = numbered(image, family, k)?;
    Ok(named(image, i))
}
