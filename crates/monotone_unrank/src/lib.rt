// The term that has a rank, as an index and as a word (document 01, "Terms and their order").
#![tactic(auto)]

ghost use Rattle.std.specs.Prelude.{◌≡◌, ◌≤◌, length};
ghost use Rattle.answers.specs.Says.{answer_says, places_of, after};
ghost use Rattle.monotone_unrank.specs.Rules.{unrank_over_says, unrank_says, widest as widest_of, unrank_any_says};

use answers::{Index, Refusal};
use words::Family;

// The index of the word of k symbols below n that has the rank r: refused as the count is; 3 if r is not below the count.
pub fn unrank_over(family: Family, n: u64, k: u64, r: u64) -> Result<Index, Refusal>
    ensures { answer_says result ≡ unrank_over_says family n k r }
{
    let c = monotone_count::count(family, n, k)?;
    if c <= r {
        return Err(Refusal::NoSuchRank);
    }
    let alphabet = n;
    let bits = unranking::word(taking::shifted_alphabet(family, n, k), k, r);
    Ok(Index {
        family,
        alphabet,
        bits,
    })
}

// The same word, written into a lent output: 8, last, if that is too short. The answer is how many places are written.
pub fn unrank(family: Family, n: u64, k: u64, r: u64, out: &mut [u64]) -> Result<u64, Refusal>
    ensures says { answer_says result ≡ places_of (unrank_says family n k r (length out.old)) }
    ensures holds { out.new ≡ after (unrank_says family n k r (length out.old)) out.old }
{
    let x = unrank_over(family, n, k, r)?;
    monotone::unpack(x, out)
}

// The alphabet whose shifted alphabet is 64: 64 for Forbidden or degree 0, otherwise 65 - k.
fn widest(family: Family, k: u64) -> u64
    requires { k ≤ 64 }
    ensures { result ≡ widest_of family k }
{
    if k == 0 {
        return 64;
    }
    64 - words::shift(family, k - 1)
}

// Unranking that names no alphabet: over the widest. 1 if k is above 64; 3.
pub fn unrank_any(family: Family, k: u64, r: u64) -> Result<Index, Refusal>
    ensures { answer_says result ≡ unrank_any_says family k r }
{
    if 64 < k {
        return Err(Refusal::TooWide);
    }
    let n = widest(family, k);
    unrank_over(family, n, k, r)
}
