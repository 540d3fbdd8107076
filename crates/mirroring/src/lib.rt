// Sets of numbers mirrored, and with them the lexicographic rank of a word and the word of a rank (document 02, section 11): mirroring turns that order into the
// colex order, the other way round, so both are found by the tables of the new order.
#![tactic(auto)]

ghost use Rattle.std.specs.Prelude.{◌≡◌, ◌^◌, ◌≤◌, ◌<◌};
ghost use Rattle.words.specs.Word.{Word, unshifted, shifted_alphabet, count as count_of};
ghost use Rattle.words.specs.Bits.{set_bits};
ghost use Rattle.lexicographic.specs.Order.{mirror, lex_rank, lex_unrank};

use words::Family;

// The set of numbers below a, mirrored: each number s becomes a - 1 - s.
fn mirrored(a: u64, bits: u64) -> u64
    requires { (a ≤ 64) × (bits < 2 ^ a) }
    ensures { set_bits result ≡ mirror a (set_bits bits) }
{
    let mut left = bits;
    let mut out: u64 = 0;
    // The set is run down and no index is counted: a `for` over as many turns would say less.
    while left != 0 {
        out += 1u64 << (a - 1 - bits::lowest(left));
        left = bits::without_lowest(left);
    }
    out
}

// The lexicographic rank over n of the word of k symbols that has the bits.
pub fn place(family: Family, n: u64, k: u64, bits: u64) -> u64
    requires { (k ≤ 64) × (shifted_alphabet family n k ≤ 64) × Word family n k (unshifted family (set_bits bits)) }
    ensures { result ≡ lex_rank family n (unshifted family (set_bits bits)) }
{
    let a = taking::shifted_alphabet(family, n, k);
    count::at(a, k) - 1 - ranking::rank(mirrored(a, bits))
}

// The bits of the word of k symbols below n that has the lexicographic rank r.
pub fn at_place(family: Family, n: u64, k: u64, r: u64) -> u64
    requires { (k ≤ 64) × (shifted_alphabet family n k ≤ 64) × (r < count_of family n k) }
    ensures { unshifted family (set_bits result) ≡ lex_unrank family n k r }
{
    let a = taking::shifted_alphabet(family, n, k);
    mirrored(a, unranking::word(a, k, count::at(a, k) - 1 - r))
}
