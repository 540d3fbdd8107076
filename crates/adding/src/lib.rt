// A walk over the Allowed words of one degree in rank order, and beside it the words with one symbol more (document 02, section 10): where the
// coefficient of each of them stands in its table, and how often the symbol occurs in it. A step costs a few instructions, whatever the degree.
#![tactic(auto)]

ghost use Rattle.std.specs.Prelude.{◌≡◌, ◌+◌, ◌<◌, eqb};
ghost use Rattle.words.specs.declared.Family.TheVariants.{Allowed};
ghost use Rattle.words.specs.Pick.{pick};
ghost use Rattle.words.specs.Next.{first, next};
ghost use Rattle.adding.specs.Places.{spelled, Placed, Movable};

// Where a walk stands: the shifted symbols of its word as bits, the rank of the word with s added, and how often s occurs in that.
#[derive(Clone, Copy)]
pub struct Place {
    pub bits: u64,
    pub rank: u64,
    pub times: u64,
}

// a if x and y are equal, otherwise 0.
fn if_equal(x: u64, y: u64, a: u64) -> u64
    ensures { result ≡ pick (eqb x y) a 0 }
{
    if x == y {
        return a;
    }
    0
}

// At the first word of k symbols: k zeros.
pub fn start(k: u64, s: u64) -> Place
    requires { s + k < 64 }
    ensures { Placed s (first Allowed k) result.bits result.rank result.times }
{
    let bits = bits::low_mask(k);
    let rank = count::at(s + k, k + 1);
    let times = 1 + if_equal(s, 0, k);
    Place { bits, rank, times }
}

// At the next word. Where its first symbol is below s, the word with s added is the next one too. Otherwise the terms in between are left out, those
// without s: the next word begins with so many zeros, and they have their count of words below s.
pub fn step(s: u64, x: Place) -> Place
    requires { Movable s x.bits x.rank x.times }
    ensures { Placed s (next Allowed (spelled x.bits)) result.bits result.rank result.times }
{
    let least = bits::lowest(x.bits);
    let bits = successor::successor(x.bits);
    if least < s {
        let rank = x.rank + 1;
        let times = x.times + if_equal(least + 1, s, 1);
        return Place { bits, rank, times };
    }
    let zeros = bits::lowest(bits + 1);
    let skipped = count::at(s + zeros, zeros + 1) + (least - s);
    let rank = x.rank + (skipped + 1);
    let times = 1 + if_equal(s, 0, zeros);
    Place { bits, rank, times }
}
