// The next wide term (document 02, section 9; Gosper's step, Knuth 7.1.3).
#![tactic(auto)]

ghost use Rattle.std.specs.Prelude.{◌≡◌};
ghost use Rattle.answers.specs.Says.{answer_says};
ghost use Rattle.seam.specs.Later.{later_in};
ghost use Rattle.wide_bits.specs.Whole.{whole};
ghost use Rattle.wide.specs.Rules.{wide_successor_says};

use answers::Refusal;
use wide::Wide;
use wide_bits::Halves;

// The set after a among those of as many numbers below 128; empty if a is the last, or empty.
// The lowest run of ones is carried, across the seam where it reaches it, and what is left of it falls to the bottom.
fn later(a: Halves) -> Halves
    ensures { whole result ≡ later_in 128 (whole a) }
{
    let z = wide_bits::lowest(a);
    let carried = wide_bits::add(a, wide_bits::bit(z));
    if wide_bits::is_empty(carried) {
        return carried;
    }
    let run = wide_bits::shr_total(wide_bits::xor(a, carried), z);
    wide_bits::add(carried, wide_bits::shr_total(run, 2))
}

// The index of the next word of as many symbols: 4 if no index of that degree in 128 bits is later.
pub fn successor(x: Wide) -> Result<Wide, Refusal>
    ensures { answer_says result ≡ wide_successor_says x }
{
    let family = x.family;
    let low = x.low;
    let high = x.high;
    let next = later(Halves { low, high });
    if wide_bits::is_empty(next) {
        return Err(Refusal::Last);
    }
    let low = next.low;
    let high = next.high;
    Ok(Wide { family, low, high })
}
