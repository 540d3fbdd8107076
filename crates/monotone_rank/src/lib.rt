// The rank of a term, by its index and by its word (document 01, "Terms and their order").
// Every call that is given an index takes it first (02, section 8): 1 if its shifted alphabet is above 64, 7 if a symbol is not below its alphabet.
#![tactic(auto)]

ghost use Rattle.std.specs.Prelude.{◌≡◌};
ghost use Rattle.answers.specs.Says.{answer_says};
ghost use Rattle.monotone_rank.specs.Rules.{rank_of_says, rank_says};

use answers::{Index, Refusal};
use words::Family;

// The rank of an index: how many words of its family and degree are earlier. It does not depend on the alphabet.
pub fn rank_of(x: Index) -> Result<u64, Refusal>
    ensures { answer_says result ≡ rank_of_says x }
{
    taking::take(x)?;
    Ok(ranking::rank(x.bits))
}

// The rank of a word, over no alphabet: 1, 2, 1 as for its bits.
pub fn rank(family: Family, word: &[u64]) -> Result<u64, Refusal>
    ensures { answer_says result ≡ rank_says family word.now }
{
    let bits = monotone::checked_bits(family, word)?;
    Ok(ranking::rank(bits))
}
