// The coefficient of a term in a coefficient table image (02, section 1).
#![tactic(auto)]

ghost use Rattle.std.specs.Prelude.{◌≡◌, ◌+◌, ◌*◌, ◌≤◌, ◌<◌, ◌^◌, length};
ghost use Rattle.words.specs.declared.Family.TheVariants.{Forbidden};
ghost use Rattle.words.specs.Rank.{rank_of};
ghost use Rattle.words.specs.Bits.{set_bits};
ghost use Rattle.answers.specs.Says.{answer_says};
ghost use Rattle.image_lookup.specs.Lookup.{entry_says, lookup_says, lookup_at_says};

use answers::{Index, Refusal};
use image_reading::Table;

// The entry of a table, by the rank of a set of shifted symbols: 3 if it has no such entry. The body lies within the image.
fn entry(image: &[u8], t: Table, bits: u64) -> Result<u64, Refusal>
    requires { (t.offset + 8 * t.entries ≤ length image.now) × (t.offset + 8 * t.entries < 2 ^ 64) }
    ensures { answer_says result ≡ entry_says image.now t (rank_of Forbidden (set_bits bits)) }
{
    let rank = ranking::rank(bits);
    if t.entries <= rank {
        return Err(Refusal::NoSuchRank);
    }
    Ok(little_endian::eight(image, t.offset + 8 * rank))
}

// The coefficient of a term, given as an index: 11 for a bad image; 12 if no table has its family and degree; 3 if it uses a symbol that the table does not have.
// A term has such a symbol exactly if its rank is not below the number of entries, so one comparison tells.
pub fn lookup(image: &[u8], x: Index) -> Result<u64, Refusal>
    ensures { answer_says result ≡ lookup_says image.now x }
{
    taking::take(x)?;
    let family = x.family;
    let bits = x.bits;
    let t = image_reading::row(image, family, bits::count_ones(bits))?;
    entry(image, t, bits)
}

// The same by a table that has been found before, so that the image is not judged again: 7 if the table's body does not lie within the image; 3 if it has no entry
// of the term's rank. The table of the term's family and degree, as `row` gives it, leads to the answer of `lookup`; one that was made up leads to an entry of its own.
pub fn lookup_at(image: &[u8], t: Table, x: Index) -> Result<u64, Refusal>
    ensures { answer_says result ≡ lookup_at_says image.now t x }
{
    taking::take(x)?;
    let size = image.len() as u64;
    if size < t.offset {
        return Err(Refusal::Outside);
    }
    if (size - t.offset) / 8 < t.entries {
        return Err(Refusal::Outside);
    }
    let bits = x.bits;
    entry(image, t, bits)
}
