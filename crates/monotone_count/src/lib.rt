// How many terms there are, and the start of a walk over all of them (document 01, "Count, start of a walk").
#![tactic(auto)]

ghost use Rattle.std.specs.Prelude.{◌≡◌};
ghost use Rattle.answers.specs.Says.{answer_says};
ghost use Rattle.monotone_count.specs.Rules.{count_says, walk_says};

use answers::{Index, Refusal};
use monotone_walk::Walk;
use words::Family;

// How many words of k symbols below n there are: 1 if k or the shifted alphabet is above 64.
pub fn count(family: Family, n: u64, k: u64) -> Result<u64, Refusal>
    ensures { answer_says result ≡ count_says family n k }
{
    if 64 < k {
        return Err(Refusal::TooWide);
    }
    if taking::too_wide(family, n, k) {
        return Err(Refusal::TooWide);
    }
    let alphabet = taking::shifted_alphabet(family, n, k);
    Ok(count::at(alphabet, k))
}

// A walk over the words of k symbols below n: refused as the count is. It stands at the k lowest bits, or nowhere if the count is 0, with the count remaining.
pub fn start(family: Family, n: u64, k: u64) -> Result<Walk, Refusal>
    ensures { answer_says result ≡ walk_says family n k }
{
    let remaining = count(family, n, k)?;
    if remaining == 0 {
        let current = None;
        return Ok(Walk { current, remaining });
    }
    let alphabet = n;
    let bits = bits::low_mask(k);
    let current = Some(Index {
        family,
        alphabet,
        bits,
    });
    Ok(Walk { current, remaining })
}
