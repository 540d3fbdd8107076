// A walk over the sets of k numbers below a in colex order that keeps count of how many stand later in lexicographic order (document 02, section 11). From a set
// to the next one that number moves by a few binomials: no set is ranked.
#![tactic(auto)]

ghost use Rattle.std.specs.Prelude.{◌≡◌, ◌<◌};
ghost use Rattle.words.specs.declared.Family.TheVariants.{Forbidden};
ghost use Rattle.words.specs.Next.{next};
ghost use Rattle.words.specs.Bits.{set_bits};
ghost use Rattle.lexicographic.specs.Later.{later_words, run as run_of};
ghost use Rattle.following.specs.Stands.{Stands};

// How many numbers of a set follow its lowest one without a gap.
fn run(bits: u64) -> u64
    requires { 0 < bits }
    ensures { result ≡ run_of (set_bits bits) }
{
    let mut left = bits::without_lowest(bits);
    let mut top = bits::lowest(bits);
    // No ones are counted beforehand: a run has fewer than two turns on average, and a count takes longer.
    for t in 0..64 {
        if left == 0 {
            return t;
        }
        if bits::lowest(left) != top + 1 {
            return t;
        }
        left = bits::without_lowest(left);
        top += 1;
    }
    64
}

// How many sets stand later in lexicographic order than the one that is next in colex order; later is how many stand later than the set itself, which is not the
// last, and c how many there are. The numbers of the lowest run but one fall to the bottom, and the last of them is raised.
pub fn next_later(a: u64, k: u64, c: u64, bits: u64, later: u64) -> u64
    requires { Stands a k c bits later }
    ensures { result ≡ later_words Forbidden a (next Forbidden (set_bits bits)) }
{
    let x = bits::lowest(bits);
    let t = run(bits);
    if t == 0 {
        return later - count::at(a - 2 - x, k - 1);
    }
    let top = x + t;
    let more = c + count::at(a - 1 - top, k - 1 - t) + count::at(a - 2 - top, k - t);
    later + more - count::at(a - x, k) - count::at(a - t, k - t)
}
