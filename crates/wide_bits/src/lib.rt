// Sets of numbers below 128 as the ones of two halves (02, §9: "a wide index of two 64-bit halves"): number s is bit s of the low half, or bit s - 64 of the high one.
// Every function has its answer for every input, and each promise is about the one number of 128 digits that the halves make.
#![tactic(auto)]

ghost use Rattle.std.specs.Prelude.{◌≡◌, ◌+◌, ◌*◌, ◌/◌, ◌%◌, ◌^◌, length, drop, ◌==◌, bit_and, bit_or, bit_xor, slice_index_or};
ghost use Rattle.words.specs.Bits.{set_bits};
ghost use Rattle.words.specs.Inversions.{smaller_in};
ghost use Rattle.wide_bits.specs.Whole.{whole};

// A number of 128 digits.
#[derive(Clone, Copy)]
pub struct Halves {
    pub low: u64,
    pub high: u64,
}

// The lowest number of the set, 128 where there is none.
pub fn lowest(a: Halves) -> u64
    ensures { result ≡ slice_index_or (set_bits (whole a)) 0 128 }
{
    let low = a.low;
    let high = a.high;
    if low != 0 {
        return bits::lowest(low);
    }
    64 + bits::lowest(high)
}

// The set without its lowest number; the empty set unchanged.
pub fn without_lowest(a: Halves) -> Halves
    ensures { set_bits (whole result) ≡ drop 1 (set_bits (whole a)) }
{
    let low = a.low;
    let high = a.high;
    if low != 0 {
        let low = bits::without_lowest(low);
        return Halves { low, high };
    }
    let high = bits::without_lowest(high);
    Halves { low, high }
}

// How many numbers the set has.
pub fn count_ones(a: Halves) -> u64
    ensures { result ≡ length (set_bits (whole a)) }
{
    let low = a.low;
    let high = a.high;
    bits::count_ones(low) + bits::count_ones(high)
}

// The number at position p of the set, counted from the lowest at 0; 128 where there are no more than p.
pub fn nth(a: Halves, p: u64) -> u64
    ensures { result ≡ slice_index_or (set_bits (whole a)) p 128 }
{
    let low = a.low;
    let high = a.high;
    let k = bits::count_ones(low);
    if p < k {
        return bits::nth(low, p);
    }
    64 + bits::nth(high, p - k)
}

// How many numbers of the set are smaller than s.
pub fn below(a: Halves, s: u64) -> u64
    ensures { result ≡ smaller_in s (set_bits (whole a)) }
{
    let low = a.low;
    let high = a.high;
    if s < 64 {
        return bits::below(low, s);
    }
    bits::count_ones(low) + bits::below(high, s - 64)
}

// The numbers from n up, each lowered by n.
pub fn shr_total(a: Halves, n: u64) -> Halves
    ensures { whole result ≡ whole a / 2 ^ n }
{
    let low = a.low;
    let high = a.high;
    if n < 64 {
        let low = bits::shr_total(low, n) + bits::shl_total(high, 64 - n);
        let high = bits::shr_total(high, n);
        return Halves { low, high };
    }
    let low = bits::shr_total(high, n - 64);
    Halves { low, high: 0 }
}

// The set with every number raised by n, without those that reach 128.
pub fn shl_total(a: Halves, n: u64) -> Halves
    ensures { whole result ≡ whole a * 2 ^ n % 2 ^ 128 }
{
    let low = a.low;
    let high = a.high;
    if n < 64 {
        let high = bits::shl_total(high, n) + bits::shr_total(low, 64 - n);
        let low = bits::shl_total(low, n);
        return Halves { low, high };
    }
    let high = bits::shl_total(low, n - 64);
    Halves { low: 0, high }
}

// The numbers below s.
pub fn lower(a: Halves, s: u64) -> Halves
    ensures { whole result ≡ whole a % 2 ^ s }
{
    let low = a.low;
    let high = a.high;
    if s < 64 {
        let low = low & bits::low_mask(s);
        return Halves { low, high: 0 };
    }
    let high = high & bits::low_mask(s - 64);
    Halves { low, high }
}

// The sum, without what passes 128 digits.
pub fn add(a: Halves, b: Halves) -> Halves
    ensures { whole result ≡ (whole a + whole b) % 2 ^ 128 }
{
    let left = a.low;
    let right = b.low;
    let above = a.high;
    let other = b.high;
    let low = std::num::wrapping_add_u64(left, right);
    let sum = std::num::wrapping_add_u64(above, other);
    if low < left {
        let high = std::num::wrapping_add_u64(sum, 1);
        return Halves { low, high };
    }
    Halves { low, high: sum }
}

// The set of the one number s; the empty set from 128 up.
pub fn bit(s: u64) -> Halves
    ensures { whole result ≡ 2 ^ s % 2 ^ 128 }
{
    shl_total(Halves { low: 1, high: 0 }, s)
}

// The numbers that are in one of the two sets.
pub fn xor(a: Halves, b: Halves) -> Halves
    ensures { whole result ≡ bit_xor (whole a) (whole b) }
{
    let low = a.low ^ b.low;
    let high = a.high ^ b.high;
    Halves { low, high }
}

// The numbers that are in both sets.
pub fn and(a: Halves, b: Halves) -> Halves
    ensures { whole result ≡ bit_and (whole a) (whole b) }
{
    let low = a.low & b.low;
    let high = a.high & b.high;
    Halves { low, high }
}

// The numbers that are in either set.
pub fn or(a: Halves, b: Halves) -> Halves
    ensures { whole result ≡ bit_or (whole a) (whole b) }
{
    let low = a.low | b.low;
    let high = a.high | b.high;
    Halves { low, high }
}

// Is the set empty?
pub fn is_empty(a: Halves) -> bool
    ensures { result ≡ (whole a == 0) }
{
    let low = a.low;
    let high = a.high;
    low == 0 && high == 0
}
