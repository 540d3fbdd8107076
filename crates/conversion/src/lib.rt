// The converter between tables in lexicographic order, the old one, and in colex order, the new one (document 02, section 11). An entry is eight bytes, whatever
// they hold. Widening the alphabet renumbers terms in the old order.
#![tactic(auto)]

ghost use Rattle.std.specs.Prelude.{◌≡◌, ◌+◌, ◌*◌, ◌<◌, ◌≤◌, not, ◌++◌, length, take, drop, ◌==◌};
ghost use Rattle.answers.specs.Says.{answer_says, places_of, after};
ghost use Rattle.lexicographic.specs.Entries.{entry_at};
ghost use Rattle.conversion.specs.Rules.{place_in, converted, convert_says, Exact};

use answers::Refusal;
use words::Family;

// Whether a buffer of so many bytes has exactly c entries. The product is not formed.
fn has_entries(bytes: usize, c: u64) -> bool
    ensures { result ≡ (bytes == 8 * c) }
{
    let whole = bytes as u64;
    if whole % 8 != 0 {
        return false;
    }
    whole / 8 == c
}

// The place of a set in one of the two orders of c: q in colex order, and in lexicographic order what is left once those that stand later are counted off.
fn place_in(colex: bool, c: u64, q: u64, later: u64) -> u64
    requires { later < c }
    ensures { result ≡ place_in colex c q later }
{
    if colex {
        return q;
    }
    c - 1 - later
}

// Copies entry i of one buffer to entry j of the other. All eight bytes are read before the first is written, so that they are moved as one number.
fn copy_entry(from: &[u8], i: u64, out: &mut [u8], j: u64)
    requires { (8 * i + 8 ≤ length from.now) × (8 * j + 8 ≤ length out.old) }
    ensures { out.new ≡ take (8 * j) out.old ++ entry_at from.now i ++ drop (8 * j + 8) out.old }
{
    let s = (8 * i) as usize;
    let t = (8 * j) as usize;
    let a = from[s];
    let b = from[s + 1];
    let c = from[s + 2];
    let d = from[s + 3];
    let e = from[s + 4];
    let f = from[s + 5];
    let g = from[s + 6];
    let h = from[s + 7];
    out[t] = a;
    out[t + 1] = b;
    out[t + 2] = c;
    out[t + 3] = d;
    out[t + 4] = e;
    out[t + 5] = f;
    out[t + 6] = g;
    out[t + 7] = h;
}

// Writes the entries in the other order. The sets are walked in colex order, with how many stand later in lexicographic order, so that both places of each are known:
// on the way back the entries are read one after the other, and written here and there.
fn write(back: bool, family: Family, n: u64, k: u64, c: u64, from: &[u8], out: &mut [u8])
    requires { Exact family n k c from.now out.old }
    ensures { out.new ≡ converted back family n k from.now }
{
    let a = taking::shifted_alphabet(family, n, k);
    let mut bits = bits::low_mask(k);
    let mut later = std::num::wrapping_sub_u64(c, 1);
    for q in 0..c {
        copy_entry(
            from,
            place_in(back, c, q, later),
            out,
            place_in(!back, c, q, later),
        );
        if q + 1 < c {
            later = following::next_later(a, k, c, bits, later);
            bits = successor::successor(bits);
        }
    }
}

// A body in the other order, written into a lent output: from the old order to the new one, or back. 1 as the count; 8 unless both buffers have exactly the count
// of entries. The answer is how many bytes are written.
pub fn convert(
    back: bool,
    family: Family,
    n: u64,
    k: u64,
    from: &[u8],
    out: &mut [u8],
) -> Result<u64, Refusal>
    ensures says { answer_says result ≡ places_of (convert_says back family n k from.now (length out.old)) }
    ensures holds { out.new ≡ after (convert_says back family n k from.now (length out.old)) out.old }
{
    let c = monotone_count::count(family, n, k)?;
    if !has_entries(from.len(), c) {
        return Err(Refusal::Shape);
    }
    if !has_entries(out.len(), c) {
        return Err(Refusal::Shape);
    }
    write(back, family, n, k, c, from, out);
    Ok(out.len() as u64)
}
