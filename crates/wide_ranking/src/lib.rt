// The rank of a set of numbers below 128, given as two halves (document 02, §9): the sum of binomial(number, position + 1).
#![tactic(auto)]

ghost use Rattle.std.specs.Prelude.{◌≡◌};
ghost use Rattle.words.specs.declared.Family.TheVariants.{Forbidden};
ghost use Rattle.words.specs.Rank.{rank_of};
ghost use Rattle.words.specs.Bits.{set_bits};
ghost use Rattle.answers.specs.Says.{answer_says};
ghost use Rattle.seam.specs.Joined.{joined};
ghost use Rattle.wide_bits.specs.Whole.{whole};
ghost use Rattle.widths.specs.Rules.{held_says};

use answers::Refusal;
use wide_bits::Halves;

// The numbers of the low half weigh what they weigh by themselves; those of the high half stand above them, at the positions that follow. A weight of 2^64 or more
// decides, and so does a sum that would be: each is judged before it is formed.
fn weighed(low: u64, high: u64) -> Result<u64, Refusal>
    ensures { answer_says result ≡ held_says (rank_of Forbidden (set_bits (joined 64 low high))) }
{
    let k = bits::count_ones(low);
    let mut left = high;
    let mut sum = ranking::rank(low);
    for i in k..k + bits::count_ones(high) {
        let c = wide_table::at(64 + bits::lowest(left), i + 1);
        if c == u64::MAX {
            return Err(Refusal::TooBig);
        }
        if u64::MAX - sum < c {
            return Err(Refusal::TooBig);
        }
        sum += c;
        left = bits::without_lowest(left);
    }
    Ok(sum)
}

// The rank of a set among the sets of as many numbers below 128: 9 if it is 2^64 or more. That of a set of numbers below 64 is the narrow one.
pub fn rank(a: Halves) -> Result<u64, Refusal>
    ensures { answer_says result ≡ held_says (rank_of Forbidden (set_bits (whole a))) }
{
    let low = a.low;
    let high = a.high;
    if high == 0 {
        return Ok(ranking::rank(low));
    }
    weighed(low, high)
}
