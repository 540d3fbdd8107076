// The set of k numbers below n, up to 128, that has a given rank, as two halves (document 02, section 9): from the top position down, each position takes the greatest
// number whose weight fits into what is left.
#![tactic(auto)]

ghost use Rattle.std.specs.Prelude.{◌≡◌, ◌<◌, ◌≤◌, ◌^◌};
ghost use Rattle.words.specs.declared.Family.TheVariants.{Forbidden};
ghost use Rattle.pascal.specs.Choose.{choose};
ghost use Rattle.words.specs.Unrank.{unrank_of};
ghost use Rattle.words.specs.Bits.{bits_of};
ghost use Rattle.wide_bits.specs.Whole.{whole};

use wide_bits::Halves;

// The numbers from 64 up by a walk down to 64; those below by the narrow form. No weight on the way has more than 64 digits, since none is above the count.
fn descended(n: u64, k: u64, r: u64) -> Halves
    requires { (n ≤ 128) × (r < choose n k) × (choose n k < 2 ^ 64) }
    ensures { whole result ≡ bits_of (unrank_of Forbidden k r) }
{
    let mut i = k;
    let mut left = r;
    let mut high: u64 = 0;
    for s in (64..n).rev() {
        let c = wide_table::at(s, i);
        if c <= left {
            left -= c;
            high += 1u64 << (s - 64);
            i -= 1;
        }
    }
    let low = unranking::word(64, i, left);
    Halves { low, high }
}

// The set of k numbers below n that has the rank r. Up to 64 numbers it is the narrow form, and a rank below the count over 64 has all its numbers in the low half,
// whatever n is.
pub fn word(n: u64, k: u64, r: u64) -> Halves
    requires { (n ≤ 128) × (r < choose n k) × (choose n k < 2 ^ 64) }
    ensures { whole result ≡ bits_of (unrank_of Forbidden k r) }
{
    if n <= 64 {
        let low = unranking::word(n, k, r);
        return Halves { low, high: 0 };
    }
    if r < count::at(64, k) {
        let low = unranking::word(64, k, r);
        return Halves { low, high: 0 };
    }
    descended(n, k, r)
}
