// The wide term that has a rank, as an index and as a word (document 02, section 9).
#![tactic(auto)]

ghost use Rattle.std.specs.Prelude.{◌≡◌, ◌++◌, ◌≤◌, length, drop};
ghost use Rattle.words.specs.Bits.{set_bits};
ghost use Rattle.answers.specs.Says.{answer_says, places_of, after};
ghost use Rattle.widths.specs.Rules.{word_in, widest_in};
ghost use Rattle.wide_bits.specs.Whole.{whole};
ghost use Rattle.wide.specs.Rules.{wide_unrank_over_says, wide_unrank_says, wide_unrank_any_says};

use answers::Refusal;
use wide::Wide;
use wide_bits::Halves;
use words::Family;

// The index of the word of k symbols below n that has the rank r: refused as the count is; 3 if r is not below the count.
pub fn unrank_over(family: Family, n: u64, k: u64, r: u64) -> Result<Wide, Refusal>
    ensures { answer_says result ≡ wide_unrank_over_says family n k r }
{
    let c = wide_count::count(family, n, k)?;
    if c <= r {
        return Err(Refusal::NoSuchRank);
    }
    let alphabet = wide_count::shifted_alphabet(family, n, k);
    let set = wide_unranking::word(alphabet, k, r);
    let low = set.low;
    let high = set.high;
    Ok(Wide { family, low, high })
}

// Writes the word of a set: its numbers, lowest first, with the shift taken off.
fn spell(family: Family, set: Halves, out: &mut [u64])
    requires { length (set_bits (whole set)) ≤ length out.old }
    ensures { out.new ≡ word_in family (whole set) ++ drop (length (word_in family (whole set))) out.old }
{
    let mut left = set;
    for i in 0..wide_bits::count_ones(set) {
        out[i as usize] = wide_bits::lowest(left) - words::shift(family, i);
        left = wide_bits::without_lowest(left);
    }
}

// The same word, written into a lent output: 8, last, if that is too short. The answer is how many places are written.
pub fn unrank(family: Family, n: u64, k: u64, r: u64, out: &mut [u64]) -> Result<u64, Refusal>
    ensures says { answer_says result ≡ places_of (wide_unrank_says family n k r (length out.old)) }
    ensures holds { out.new ≡ after (wide_unrank_says family n k r (length out.old)) out.old }
{
    let x = unrank_over(family, n, k, r)?;
    if (out.len() as u64) < k {
        return Err(Refusal::Shape);
    }
    let low = x.low;
    let high = x.high;
    spell(family, Halves { low, high }, out);
    Ok(k)
}

// The alphabet whose shifted alphabet is 128: 128 for Forbidden or degree 0, otherwise 129 - k.
fn widest(family: Family, k: u64) -> u64
    requires { k ≤ 128 }
    ensures { result ≡ widest_in 128 family k }
{
    if k == 0 {
        return 128;
    }
    128 - words::shift(family, k - 1)
}

// Unranking that names no alphabet: over the widest. 1 if k is above 128; 9 if there are 2^64 words or more, which is for k from 16 to 112; 3.
pub fn unrank_any(family: Family, k: u64, r: u64) -> Result<Wide, Refusal>
    ensures { answer_says result ≡ wide_unrank_any_says family k r }
{
    if 128 < k {
        return Err(Refusal::TooWide);
    }
    let n = widest(family, k);
    unrank_over(family, n, k, r)
}
