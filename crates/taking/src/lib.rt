// Taking an index: whether a record holds a word over the alphabet that it names, tested before all else by every call that is given one.
#![tactic(auto)]

ghost use Rattle.std.specs.Prelude.{◌≡◌, false, ◌≤◌, ltb};
ghost use Rattle.words.specs.Word.{shifted_alphabet};
ghost use Rattle.taking.specs.Taken.{shifted_alphabet_of as top_of, too_wide, outside as outside_of, verdict_of, verdict_of_both};

use answers::{Index, Refusal};
use words::Family;

// The alphabet of the shifted words: n for Forbidden or degree 0, otherwise n + k - 1.
pub fn shifted_alphabet(family: Family, n: u64, k: u64) -> u64
    requires { (n ≤ 64) × (k ≤ 128) }
    ensures { result ≡ shifted_alphabet family n k }
{
    if k == 0 {
        return n;
    }
    n + words::shift(family, k - 1)
}

// Whether it is above 64, for any n. Two degrees may be added up.
pub fn too_wide(family: Family, n: u64, k: u64) -> bool
    requires { k ≤ 128 }
    ensures { result ≡ ltb 64 (shifted_alphabet family n k) }
{
    if 64 < n {
        return true;
    }
    64 < shifted_alphabet(family, n, k)
}

// The shifted alphabet of a record. The ones are counted only where it depends on them.
pub fn top(x: Index) -> u64
    requires { x.alphabet ≤ 64 }
    ensures { result ≡ top_of x }
{
    let family = x.family;
    if let Family::Forbidden = family {
        return x.alphabet;
    }
    shifted_alphabet(family, x.alphabet, bits::count_ones(x.bits))
}

// Whether it is above 64.
fn wide(x: Index) -> bool
    ensures { result ≡ too_wide x }
{
    if 64 < x.alphabet {
        return true;
    }
    64 < top(x)
}

// Whether a symbol of the word is not below the record's alphabet. That is so exactly if a bit stands at its shifted alphabet or above.
pub fn outside(x: Index) -> bool
    requires { too_wide x ≡ false }
    ensures { result ≡ outside_of x }
{
    let top = top(x);
    bits::reaches(x.bits, top)
}

// One record: 1 if its shifted alphabet is above 64; 7 if a symbol is not below its alphabet.
pub fn take(x: Index) -> Result<(), Refusal>
    ensures { result ≡ verdict_of x }
{
    if wide(x) {
        return Err(Refusal::TooWide);
    }
    if outside(x) {
        return Err(Refusal::Outside);
    }
    Ok(())
}

// Two records: the 1 of either, then the 7 of either.
pub fn take_both(x: Index, y: Index) -> Result<(), Refusal>
    ensures { result ≡ verdict_of_both x y }
{
    if wide(x) {
        return Err(Refusal::TooWide);
    }
    if wide(y) {
        return Err(Refusal::TooWide);
    }
    if outside(x) {
        return Err(Refusal::Outside);
    }
    if outside(y) {
        return Err(Refusal::Outside);
    }
    Ok(())
}
