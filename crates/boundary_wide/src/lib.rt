// How wide indices cross to a program in C (docs/RULES.md, "The C boundary"): as two halves, the low one first. As in the crate boundary the refusal comes back, and each
// result goes to a place of the caller's, which is written only on an answer.
#![tactic(auto)]

ghost use Rattle.std.specs.Prelude.{◌≡◌};
ghost use Rattle.answers.specs.Says.{answer_says};
ghost use Rattle.boundary.specs.Boundary.{status, stored};
ghost use Rattle.boundary_wide.specs.Halves.{wide_at, low_of, high_of, minus_of_term, low_of_term, high_of_term};
ghost use Rattle.boundary_wide.specs.Halves.{minus_of_gap, symbol_of_gap, low_of_gap, high_of_gap};

use answers::Refusal;
use boundary::Status;
use wide::{Wide, WideGap, WideTerm};

// A wide index from its three parts.
pub fn index(allowed: bool, low: u64, high: u64) -> Wide
    ensures { result ≡ wide_at allowed low high }
{
    let family = boundary::family(allowed);
    Wide { family, low, high }
}

// The halves of a wide index.
pub fn indexed(a: Result<Wide, Refusal>, low: &mut u64, high: &mut u64) -> Status
    ensures back { result ≡ status (answer_says a) }
    ensures low { low.new ≡ stored low_of (answer_says a) low.old }
    ensures high { high.new ≡ stored high_of (answer_says a) high.old }
{
    match a {
        Ok(x) => {
            *low = x.low;
            *high = x.high;
            boundary::answer()
        }
        Err(why) => boundary::refused(why),
    }
}

// A sign, as whether it is minus, and the halves of a wide index.
pub fn signed(
    a: Result<WideTerm, Refusal>,
    sign: &mut bool,
    low: &mut u64,
    high: &mut u64,
) -> Status
    ensures back { result ≡ status (answer_says a) }
    ensures sign { sign.new ≡ stored minus_of_term (answer_says a) sign.old }
    ensures low { low.new ≡ stored low_of_term (answer_says a) low.old }
    ensures high { high.new ≡ stored high_of_term (answer_says a) high.old }
{
    match a {
        Ok(term) => {
            *sign = boundary::is_minus(term.sign);
            *low = term.index.low;
            *high = term.index.high;
            boundary::answer()
        }
        Err(e) => boundary::refused(e),
    }
}

// A sign, as whether it is minus, the symbol that was deleted, and the halves of what is left.
pub fn deleted(
    a: Result<WideGap, Refusal>,
    sign: &mut bool,
    symbol: &mut u64,
    low: &mut u64,
    high: &mut u64,
) -> Status
    ensures back { result ≡ status (answer_says a) }
    ensures sign { sign.new ≡ stored minus_of_gap (answer_says a) sign.old }
    ensures symbol { symbol.new ≡ stored symbol_of_gap (answer_says a) symbol.old }
    ensures low { low.new ≡ stored low_of_gap (answer_says a) low.old }
    ensures high { high.new ≡ stored high_of_gap (answer_says a) high.old }
{
    match a {
        Ok(gone) => {
            *sign = boundary::is_minus(gone.sign);
            *symbol = gone.symbol;
            *low = gone.index.low;
            *high = gone.index.high;
            boundary::answer()
        }
        Err(e) => boundary::refused(e),
    }
}
