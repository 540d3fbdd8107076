// The ranks of many indices of one family and one alphabet (document 02, section 12): a loop of calls pays for each call, and this for one.
// An index that is not taken refuses all, as it would alone, and tells its position; nothing is written unless all are good.
#![tactic(auto)]

ghost use Rattle.std.specs.Prelude.{◌≡◌, ◌++◌, ◌≤◌, length, drop};
ghost use Rattle.answers.specs.Says.{places_of, after};
ghost use Rattle.rank_all.specs.Rules.{set_ranks, JudgesAll, rank_all_says, ranked_says};

use answers::{Index, Refusal};
use words::Family;

// A refusal, and a position: that of the index that is not taken, or the first that has no room.
#[derive(Clone, Copy)]
pub struct PlacedRefusal {
    pub refusal: Refusal,
    pub at: u64,
}

// Takes the indices, one after the other.
fn judge(family: Family, n: u64, bits: &[u64]) -> Result<(), PlacedRefusal>
    ensures { JudgesAll family n bits.now result }
{
    let alphabet = n;
    for (i, b) in bits.iter().enumerate() {
        let bits = *b;
        let x = Index {
            family,
            alphabet,
            bits,
        };
        if let Err(refusal) = taking::take(x) {
            return Err(PlacedRefusal {
                refusal,
                at: i as u64,
            });
        }
    }
    Ok(())
}

// Writes the rank of each.
fn write(bits: &[u64], out: &mut [u64])
    requires { length bits.now ≤ length out.old }
    ensures { out.new ≡ set_ranks bits.now ++ drop (length (set_ranks bits.now)) out.old }
{
    for (i, b) in bits.iter().enumerate() {
        out[i] = ranking::rank(*b);
    }
}

// The ranks of indices of a family over the alphabet n, given by their bits, written into a lent output: 1, 7 of the first that is not taken, with its position; 8 with
// the first position that has no room. The answer is how many places are written.
pub fn rank_all(family: Family, n: u64, bits: &[u64], out: &mut [u64]) -> Result<u64, PlacedRefusal>
    ensures says { ranked_says result ≡ places_of (rank_all_says family n bits.now (length out.old)) }
    ensures holds { out.new ≡ after (rank_all_says family n bits.now (length out.old)) out.old }
{
    judge(family, n, bits)?;
    let room = out.len();
    if room < bits.len() {
        return Err(PlacedRefusal {
            refusal: Refusal::Shape,
            at: room as u64,
        });
    }
    write(bits, out);
    Ok(bits.len() as u64)
}
