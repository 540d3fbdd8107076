// The next term, and the steps of a walk over all of them (document 01, "Terms and their order").
// Every call that is given an index takes it first (02, section 8): 1 if its shifted alphabet is above 64, 7 if a symbol is not below its alphabet.
#![tactic(auto)]

ghost use Rattle.std.specs.Prelude.{◌≡◌};
ghost use Rattle.answers.specs.Says.{answer_says};
ghost use Rattle.monotone_walk.specs.Rules.{next_says, successor_says};
ghost use Rattle.taking.specs.Taken.{Accepted};
ghost use Rattle.monotone_walk.specs.Walks.{step_says};

use answers::{Index, Refusal};

// The index of the next word of as many symbols below the same n, for an index that was taken: 4 at the last.
fn next_of(x: Index) -> Result<Index, Refusal>
    requires { Accepted x }
    ensures { answer_says result ≡ next_says x }
{
    let family = x.family;
    let alphabet = x.alphabet;
    let bits = successor::successor(x.bits);
    if bits == 0 {
        return Err(Refusal::Last);
    }
    if bits::reaches(bits, taking::top(x)) {
        return Err(Refusal::Last);
    }
    Ok(Index {
        family,
        alphabet,
        bits,
    })
}

// The same for any index, each test in its order.
fn judged_next(x: Index) -> Result<Index, Refusal>
    ensures { answer_says result ≡ successor_says x }
{
    taking::take(x)?;
    next_of(x)
}

// The index of the next word of as many symbols below the same n: 4 at the last. The next set is the larger, over the same shifted alphabet: where it stays
// below that, so does the index itself, and nothing else is tested.
pub fn successor(x: Index) -> Result<Index, Refusal>
    ensures { answer_says result ≡ successor_says x }
{
    let family = x.family;
    let alphabet = x.alphabet;
    if 64 < alphabet {
        return judged_next(x);
    }
    let bits = successor::successor(x.bits);
    if bits == 0 {
        return judged_next(x);
    }
    let top = taking::top(x);
    if 64 < top {
        return judged_next(x);
    }
    if bits::shr_total(bits, top) != 0 {
        return judged_next(x);
    }
    Ok(Index {
        family,
        alphabet,
        bits,
    })
}

// The state of a walk: where it stands, at an index or nowhere, and how many indices it has still to give. Anyone may make one up.
#[derive(Clone, Copy)]
pub struct Walk {
    pub current: Option<Index>,
    pub remaining: u64,
}

// The index that a walk stood at, and its state after that.
#[derive(Clone, Copy)]
pub struct Moved {
    pub index: Index,
    pub state: Walk,
}

// One step of a walk: 4 if it stands nowhere; the index that it stands at is taken; 4 if nothing remains. It gives the index it stands at, and moves to the successor, or nowhere, with one fewer remaining.
pub fn step(w: Walk) -> Result<Moved, Refusal>
    ensures { answer_says result ≡ step_says w }
{
    let current = w.current;
    let remaining = w.remaining;
    let x = current.ok_or(Refusal::Last)?;
    taking::take(x)?;
    if remaining == 0 {
        return Err(Refusal::Last);
    }
    Ok(Moved {
        index: x,
        state: Walk {
            current: next_of(x).ok(),
            remaining: remaining - 1,
        },
    })
}
