// The rank of a list of exponents and the exponents of a rank (document 01, "Shapes, digit words, exponents"): those of the Allowed word that they stand for.
#![tactic(auto)]

ghost use Rattle.std.specs.Prelude.{◌≡◌, length};
ghost use Rattle.answers.specs.Says.{answer_says, places_of, after};
ghost use Rattle.composition_rank.specs.Rules.{exponent_rank_says, from_rank_says};

use answers::Refusal;
use words::Family;

// The rank of a list of exponents, which is the Allowed rank of its word: 1.
pub fn rank(entries: &[u64]) -> Result<u64, Refusal>
    ensures { answer_says result ≡ exponent_rank_says entries.now }
{
    let k = composition::degree(entries);
    if 64 < k {
        return Err(Refusal::TooWide);
    }
    let mut word = [0u64; 64];
    composition::spell(entries, &mut word);
    let end = k as usize;
    monotone_rank::rank(Family::Allowed, &word[0..end])
}

// The exponents over n symbols of the Allowed word of k symbols that has the rank r, written into a lent output: 1; 3 if r is not below the count; 8.
pub fn from_rank(n: u64, k: u64, r: u64, out: &mut [u64]) -> Result<u64, Refusal>
    ensures says { answer_says result ≡ places_of (from_rank_says n k r (length out.old)) }
    ensures holds { out.new ≡ after (from_rank_says n k r (length out.old)) out.old }
{
    let mut word = [0u64; 64];
    let d = monotone_unrank::unrank(Family::Allowed, n, k, r, &mut word)?;
    if (out.len() as u64) < n {
        return Err(Refusal::Shape);
    }
    let end = d as usize;
    composition::tally(n, &word[0..end], out);
    Ok(n)
}
