// Deleting a symbol from a wide term (document 02, section 9; document 01, "deletion closes the gap").
#![tactic(auto)]

ghost use Rattle.std.specs.Prelude.{◌≡◌, ◌+◌, ◌*◌, ◌/◌, ◌%◌, ◌^◌, ◌≤◌, ◌<◌};
ghost use Rattle.answers.specs.Says.{answer_says};
ghost use Rattle.wide_bits.specs.Whole.{whole};
ghost use Rattle.wide.specs.Rules.{wide_delete_says};

use answers::{Refusal, Sign};
use wide::{Wide, WideGap};
use wide_bits::Halves;
use words::Family;

// The numbers below s, and those above s, moved so that s + 1 comes to stand at k: at s + 1 for Forbidden, at s for Allowed, whose later shifts fall by one. What
// stands above the seam and falls below it passes into the low half.
fn closed(a: Halves, s: u64, k: u64) -> Halves
    requires { (s < 128) × (s ≤ k) × (k ≤ s + 1) }
    ensures { whole result ≡ whole a / 2 ^ (s + 1) * 2 ^ k + whole a % 2 ^ s }
{
    let below = wide_bits::lower(a, s);
    let above = wide_bits::shr_total(a, s + 1);
    wide_bits::add(below, wide_bits::shl_total(above, k))
}

// The term without the symbol at position p: 7 if it has no such position. The sign is that of moving the symbol to the front, (-1)^p for
// Forbidden and plus for Allowed; the symbol is unshifted.
pub fn delete(x: Wide, p: u64) -> Result<WideGap, Refusal>
    ensures { answer_says result ≡ wide_delete_says x p }
{
    let family = x.family;
    let low = x.low;
    let high = x.high;
    let a = Halves { low, high };
    if wide_bits::count_ones(a) <= p {
        return Err(Refusal::Outside);
    }
    let s = wide_bits::nth(a, p);
    match family {
        Family::Forbidden => {
            let set = closed(a, s, s + 1);
            let low = set.low;
            let high = set.high;
            Ok(WideGap {
                sign: answers::from_parity(p),
                symbol: s,
                index: Wide { family, low, high },
            })
        }
        Family::Allowed => {
            let symbol = s - p;
            let set = closed(a, s, s);
            let low = set.low;
            let high = set.high;
            Ok(WideGap {
                sign: Sign::Plus,
                symbol,
                index: Wide { family, low, high },
            })
        }
    }
}
