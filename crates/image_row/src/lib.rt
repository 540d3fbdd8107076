// One row of the contents list of a coefficient table image (02, section 1), its fields judged in reading order.
#![tactic(auto)]

ghost use Rattle.std.specs.Prelude.{◌≡◌, ◌+◌, ◌≤◌, length};
ghost use Rattle.answers.specs.Says.{gives, refuses_at, answer_says};
ghost use Rattle.little_endian.specs.Bytes.{number_at};
ghost use Rattle.image_rules.specs.Image.{family_of_byte, fields_at, judged};
ghost use Rattle.image_row.specs.Steps.{Covers, marked, body_fields, words_fields};

use answers::Refusal;
use little_endian::{four, wide};
use words::Family;

// The family that a byte stands for: 0 Forbidden, 1 Allowed.
fn family_of(b: u64) -> Family
    ensures { result ≡ family_of_byte b }
{
    if b == 0 {
        return Family::Forbidden;
    }
    Family::Allowed
}

// A bad image, with the offset that it is charged to.
pub fn bad(at: u64) -> Result<u64, Refusal>
    ensures { answer_says result ≡ refuses_at 11 at }
{
    Err(Refusal::BadImage(at))
}

// The offset and the number of entries of the row at `at`, which has as many words as `words` says: the number of entries.
fn row_body(s: &[u8], size: u64, at: u64, place: u64, words: u64) -> Result<u64, Refusal>
    requires { Covers (length s.now) size × (at + 12 ≤ 772) × (place ≤ 65536) }
    ensures { answer_says result ≡ judged size (body_fields s.now at place words) (gives (number_at s.now (at + 8) 4)) }
{
    if size < at + 8 {
        return bad(size);
    }
    if four(s, at + 4) != place {
        return bad(at + 4);
    }
    if size < at + 12 {
        return bad(size);
    }
    let c = four(s, at + 8);
    if c != words {
        return bad(at + 8);
    }
    if c == 0 {
        return bad(at + 8);
    }
    if 65536 < place + 8 * c {
        return bad(at + 8);
    }
    Ok(c)
}

// The alphabet, the zero byte and what stands behind them in the row at `at`, which has the family f and the degree k.
fn row_words(s: &[u8], size: u64, at: u64, place: u64, f: u64, k: u64) -> Result<u64, Refusal>
    requires { Covers (length s.now) size × (at + 12 ≤ 772) × (place ≤ 65536) × (k ≤ 64) }
    ensures { answer_says result ≡ judged size (words_fields s.now at place f k) (gives (number_at s.now (at + 8) 4)) }
{
    if size < at + 3 {
        return bad(size);
    }
    let i = at as usize;
    let n = wide(s[i + 2]);
    let family = family_of(f);
    if taking::too_wide(family, n, k) {
        return bad(at + 2);
    }
    if size < at + 4 {
        return bad(size);
    }
    if wide(s[i + 3]) != 0 {
        return bad(at + 3);
    }
    let alphabet = taking::shifted_alphabet(family, n, k);
    row_body(s, size, at, place, count::at(alphabet, k))
}

// The fields of the row at `at`, whose body has to start at `place`: the number of entries. The marks are those of the families and degrees of the rows before it.
pub fn row(s: &[u8], size: u64, at: u64, place: u64, used: &[bool; 130]) -> Result<u64, Refusal>
    requires { Covers (length s.now) size × (at + 12 ≤ 772) × (place ≤ 65536) }
    ensures { answer_says result ≡ judged size (fields_at s.now at place (marked used.now)) (gives (number_at s.now (at + 8) 4)) }
{
    if size < at + 1 {
        return bad(size);
    }
    let i = at as usize;
    let f = wide(s[i]);
    if 2 <= f {
        return bad(at);
    }
    if size < at + 2 {
        return bad(size);
    }
    let k = wide(s[i + 1]);
    if 64 < k {
        return bad(at + 1);
    }
    if used[(65 * f + k) as usize] {
        return bad(at + 1);
    }
    row_words(s, size, at, place, f, k)
}
