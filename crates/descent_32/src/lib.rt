// The sets of 2 to 32 numbers by their rank, each number found by halving its column (document 01, "Terms and their order"). Made by tools/halves.py.
// The rows are cut at 48, 32, 16 and 8. The link `below_s_k` has k numbers of rank r to find, all below the cut s, and a holds those that are found. One
// comparison says whether they are below the next cut too, and then that cut's link takes over, for good. Otherwise the highest is one of the rows between
// the two cuts, at most 16; each comparison halves these, with no branch, and what is left goes to the link for one number fewer.
// Here are the links below 32; those of the lower cuts are in crates of their own.
#![tactic(auto)]

ghost use Rattle.std.specs.Prelude.{◌≡◌, ◌+◌};
ghost use Rattle.halving.specs.Search.{value, Sought};

use halving::{below, half, last, middle, rows, with};

pub fn below_32_2(r: u64, a: u64) -> u64
    requires { Sought 64 2 32 r a }
    ensures { result ≡ a + value 2 r }
{
    if r < 120 {
        return descent_16::below_16_2(r, below(16, 120, 2, 32, r, a));
    }
    let j = rows(16, 16, 120, 2, 32, r, a);
    let t = middle(16, 8, j, 2, r);
    let j = half(16, 8, j, t, halves_low::lower_2(t), 2, r);
    let t = middle(16, 4, j, 2, r);
    let j = half(16, 4, j, t, halves_low::lower_2(t), 2, r);
    let t = middle(16, 2, j, 2, r);
    let j = half(16, 2, j, t, halves_low::lower_2(t), 2, r);
    let t = middle(16, 1, j, 2, r);
    let j = half(16, 1, j, t, halves_low::lower_2(t), 2, r);
    let t = 16 + j;
    let c = halves_low::lower_2(t);
    let x = with(16, j, t, c, 2, 32, r, a);
    last(32, r - c, x)
}

pub fn below_32_3(r: u64, a: u64) -> u64
    requires { Sought 64 3 32 r a }
    ensures { result ≡ a + value 3 r }
{
    if r < 560 {
        return descent_16::below_16_3(r, below(16, 560, 3, 32, r, a));
    }
    let j = rows(16, 16, 560, 3, 32, r, a);
    let t = middle(16, 8, j, 3, r);
    let j = half(16, 8, j, t, halves_low::lower_3(t), 3, r);
    let t = middle(16, 4, j, 3, r);
    let j = half(16, 4, j, t, halves_low::lower_3(t), 3, r);
    let t = middle(16, 2, j, 3, r);
    let j = half(16, 2, j, t, halves_low::lower_3(t), 3, r);
    let t = middle(16, 1, j, 3, r);
    let j = half(16, 1, j, t, halves_low::lower_3(t), 3, r);
    let t = 16 + j;
    let c = halves_low::lower_3(t);
    let x = with(16, j, t, c, 3, 32, r, a);
    below_32_2(r - c, x)
}

pub fn below_32_4(r: u64, a: u64) -> u64
    requires { Sought 64 4 32 r a }
    ensures { result ≡ a + value 4 r }
{
    if r < 1820 {
        return descent_16::below_16_4(r, below(16, 1820, 4, 32, r, a));
    }
    let j = rows(16, 16, 1820, 4, 32, r, a);
    let t = middle(16, 8, j, 4, r);
    let j = half(16, 8, j, t, halves_low::lower_4(t), 4, r);
    let t = middle(16, 4, j, 4, r);
    let j = half(16, 4, j, t, halves_low::lower_4(t), 4, r);
    let t = middle(16, 2, j, 4, r);
    let j = half(16, 2, j, t, halves_low::lower_4(t), 4, r);
    let t = middle(16, 1, j, 4, r);
    let j = half(16, 1, j, t, halves_low::lower_4(t), 4, r);
    let t = 16 + j;
    let c = halves_low::lower_4(t);
    let x = with(16, j, t, c, 4, 32, r, a);
    below_32_3(r - c, x)
}

pub fn below_32_5(r: u64, a: u64) -> u64
    requires { Sought 64 5 32 r a }
    ensures { result ≡ a + value 5 r }
{
    if r < 4368 {
        return descent_16::below_16_5(r, below(16, 4368, 5, 32, r, a));
    }
    let j = rows(16, 16, 4368, 5, 32, r, a);
    let t = middle(16, 8, j, 5, r);
    let j = half(16, 8, j, t, halves_low::lower_5(t), 5, r);
    let t = middle(16, 4, j, 5, r);
    let j = half(16, 4, j, t, halves_low::lower_5(t), 5, r);
    let t = middle(16, 2, j, 5, r);
    let j = half(16, 2, j, t, halves_low::lower_5(t), 5, r);
    let t = middle(16, 1, j, 5, r);
    let j = half(16, 1, j, t, halves_low::lower_5(t), 5, r);
    let t = 16 + j;
    let c = halves_low::lower_5(t);
    let x = with(16, j, t, c, 5, 32, r, a);
    below_32_4(r - c, x)
}

pub fn below_32_6(r: u64, a: u64) -> u64
    requires { Sought 64 6 32 r a }
    ensures { result ≡ a + value 6 r }
{
    if r < 8008 {
        return descent_16::below_16_6(r, below(16, 8008, 6, 32, r, a));
    }
    let j = rows(16, 16, 8008, 6, 32, r, a);
    let t = middle(16, 8, j, 6, r);
    let j = half(16, 8, j, t, halves_low::lower_6(t), 6, r);
    let t = middle(16, 4, j, 6, r);
    let j = half(16, 4, j, t, halves_low::lower_6(t), 6, r);
    let t = middle(16, 2, j, 6, r);
    let j = half(16, 2, j, t, halves_low::lower_6(t), 6, r);
    let t = middle(16, 1, j, 6, r);
    let j = half(16, 1, j, t, halves_low::lower_6(t), 6, r);
    let t = 16 + j;
    let c = halves_low::lower_6(t);
    let x = with(16, j, t, c, 6, 32, r, a);
    below_32_5(r - c, x)
}

pub fn below_32_7(r: u64, a: u64) -> u64
    requires { Sought 64 7 32 r a }
    ensures { result ≡ a + value 7 r }
{
    if r < 11440 {
        return descent_16::below_16_7(r, below(16, 11440, 7, 32, r, a));
    }
    let j = rows(16, 16, 11440, 7, 32, r, a);
    let t = middle(16, 8, j, 7, r);
    let j = half(16, 8, j, t, halves_low::lower_7(t), 7, r);
    let t = middle(16, 4, j, 7, r);
    let j = half(16, 4, j, t, halves_low::lower_7(t), 7, r);
    let t = middle(16, 2, j, 7, r);
    let j = half(16, 2, j, t, halves_low::lower_7(t), 7, r);
    let t = middle(16, 1, j, 7, r);
    let j = half(16, 1, j, t, halves_low::lower_7(t), 7, r);
    let t = 16 + j;
    let c = halves_low::lower_7(t);
    let x = with(16, j, t, c, 7, 32, r, a);
    below_32_6(r - c, x)
}

pub fn below_32_8(r: u64, a: u64) -> u64
    requires { Sought 64 8 32 r a }
    ensures { result ≡ a + value 8 r }
{
    if r < 12870 {
        return descent_16::below_16_8(r, below(16, 12870, 8, 32, r, a));
    }
    let j = rows(16, 16, 12870, 8, 32, r, a);
    let t = middle(16, 8, j, 8, r);
    let j = half(16, 8, j, t, halves_low::lower_8(t), 8, r);
    let t = middle(16, 4, j, 8, r);
    let j = half(16, 4, j, t, halves_low::lower_8(t), 8, r);
    let t = middle(16, 2, j, 8, r);
    let j = half(16, 2, j, t, halves_low::lower_8(t), 8, r);
    let t = middle(16, 1, j, 8, r);
    let j = half(16, 1, j, t, halves_low::lower_8(t), 8, r);
    let t = 16 + j;
    let c = halves_low::lower_8(t);
    let x = with(16, j, t, c, 8, 32, r, a);
    below_32_7(r - c, x)
}

pub fn below_32_9(r: u64, a: u64) -> u64
    requires { Sought 64 9 32 r a }
    ensures { result ≡ a + value 9 r }
{
    if r < 11440 {
        return descent_16::below_16_9(r, below(16, 11440, 9, 32, r, a));
    }
    let j = rows(16, 16, 11440, 9, 32, r, a);
    let t = middle(16, 8, j, 9, r);
    let j = half(16, 8, j, t, halves_low::lower_9(t), 9, r);
    let t = middle(16, 4, j, 9, r);
    let j = half(16, 4, j, t, halves_low::lower_9(t), 9, r);
    let t = middle(16, 2, j, 9, r);
    let j = half(16, 2, j, t, halves_low::lower_9(t), 9, r);
    let t = middle(16, 1, j, 9, r);
    let j = half(16, 1, j, t, halves_low::lower_9(t), 9, r);
    let t = 16 + j;
    let c = halves_low::lower_9(t);
    let x = with(16, j, t, c, 9, 32, r, a);
    below_32_8(r - c, x)
}

pub fn below_32_10(r: u64, a: u64) -> u64
    requires { Sought 64 10 32 r a }
    ensures { result ≡ a + value 10 r }
{
    if r < 8008 {
        return descent_16::below_16_10(r, below(16, 8008, 10, 32, r, a));
    }
    let j = rows(16, 16, 8008, 10, 32, r, a);
    let t = middle(16, 8, j, 10, r);
    let j = half(16, 8, j, t, halves_low::lower_10(t), 10, r);
    let t = middle(16, 4, j, 10, r);
    let j = half(16, 4, j, t, halves_low::lower_10(t), 10, r);
    let t = middle(16, 2, j, 10, r);
    let j = half(16, 2, j, t, halves_low::lower_10(t), 10, r);
    let t = middle(16, 1, j, 10, r);
    let j = half(16, 1, j, t, halves_low::lower_10(t), 10, r);
    let t = 16 + j;
    let c = halves_low::lower_10(t);
    let x = with(16, j, t, c, 10, 32, r, a);
    below_32_9(r - c, x)
}

pub fn below_32_11(r: u64, a: u64) -> u64
    requires { Sought 64 11 32 r a }
    ensures { result ≡ a + value 11 r }
{
    if r < 4368 {
        return descent_16::below_16_11(r, below(16, 4368, 11, 32, r, a));
    }
    let j = rows(16, 16, 4368, 11, 32, r, a);
    let t = middle(16, 8, j, 11, r);
    let j = half(16, 8, j, t, halves_low::lower_11(t), 11, r);
    let t = middle(16, 4, j, 11, r);
    let j = half(16, 4, j, t, halves_low::lower_11(t), 11, r);
    let t = middle(16, 2, j, 11, r);
    let j = half(16, 2, j, t, halves_low::lower_11(t), 11, r);
    let t = middle(16, 1, j, 11, r);
    let j = half(16, 1, j, t, halves_low::lower_11(t), 11, r);
    let t = 16 + j;
    let c = halves_low::lower_11(t);
    let x = with(16, j, t, c, 11, 32, r, a);
    below_32_10(r - c, x)
}

pub fn below_32_12(r: u64, a: u64) -> u64
    requires { Sought 64 12 32 r a }
    ensures { result ≡ a + value 12 r }
{
    if r < 1820 {
        return descent_16::below_16_12(r, below(16, 1820, 12, 32, r, a));
    }
    let j = rows(16, 16, 1820, 12, 32, r, a);
    let t = middle(16, 8, j, 12, r);
    let j = half(16, 8, j, t, halves_low::lower_12(t), 12, r);
    let t = middle(16, 4, j, 12, r);
    let j = half(16, 4, j, t, halves_low::lower_12(t), 12, r);
    let t = middle(16, 2, j, 12, r);
    let j = half(16, 2, j, t, halves_low::lower_12(t), 12, r);
    let t = middle(16, 1, j, 12, r);
    let j = half(16, 1, j, t, halves_low::lower_12(t), 12, r);
    let t = 16 + j;
    let c = halves_low::lower_12(t);
    let x = with(16, j, t, c, 12, 32, r, a);
    below_32_11(r - c, x)
}

pub fn below_32_13(r: u64, a: u64) -> u64
    requires { Sought 64 13 32 r a }
    ensures { result ≡ a + value 13 r }
{
    if r < 560 {
        return descent_16::below_16_13(r, below(16, 560, 13, 32, r, a));
    }
    let j = rows(16, 16, 560, 13, 32, r, a);
    let t = middle(16, 8, j, 13, r);
    let j = half(16, 8, j, t, halves_low::lower_13(t), 13, r);
    let t = middle(16, 4, j, 13, r);
    let j = half(16, 4, j, t, halves_low::lower_13(t), 13, r);
    let t = middle(16, 2, j, 13, r);
    let j = half(16, 2, j, t, halves_low::lower_13(t), 13, r);
    let t = middle(16, 1, j, 13, r);
    let j = half(16, 1, j, t, halves_low::lower_13(t), 13, r);
    let t = 16 + j;
    let c = halves_low::lower_13(t);
    let x = with(16, j, t, c, 13, 32, r, a);
    below_32_12(r - c, x)
}

pub fn below_32_14(r: u64, a: u64) -> u64
    requires { Sought 64 14 32 r a }
    ensures { result ≡ a + value 14 r }
{
    if r < 120 {
        return descent_16::below_16_14(r, below(16, 120, 14, 32, r, a));
    }
    let j = rows(16, 16, 120, 14, 32, r, a);
    let t = middle(16, 8, j, 14, r);
    let j = half(16, 8, j, t, halves_low::lower_14(t), 14, r);
    let t = middle(16, 4, j, 14, r);
    let j = half(16, 4, j, t, halves_low::lower_14(t), 14, r);
    let t = middle(16, 2, j, 14, r);
    let j = half(16, 2, j, t, halves_low::lower_14(t), 14, r);
    let t = middle(16, 1, j, 14, r);
    let j = half(16, 1, j, t, halves_low::lower_14(t), 14, r);
    let t = 16 + j;
    let c = halves_low::lower_14(t);
    let x = with(16, j, t, c, 14, 32, r, a);
    below_32_13(r - c, x)
}

pub fn below_32_15(r: u64, a: u64) -> u64
    requires { Sought 64 15 32 r a }
    ensures { result ≡ a + value 15 r }
{
    if r < 16 {
        return descent_16::below_16_15(r, below(16, 16, 15, 32, r, a));
    }
    let j = rows(16, 16, 16, 15, 32, r, a);
    let t = middle(16, 8, j, 15, r);
    let j = half(16, 8, j, t, halves_low::lower_15(t), 15, r);
    let t = middle(16, 4, j, 15, r);
    let j = half(16, 4, j, t, halves_low::lower_15(t), 15, r);
    let t = middle(16, 2, j, 15, r);
    let j = half(16, 2, j, t, halves_low::lower_15(t), 15, r);
    let t = middle(16, 1, j, 15, r);
    let j = half(16, 1, j, t, halves_low::lower_15(t), 15, r);
    let t = 16 + j;
    let c = halves_low::lower_15(t);
    let x = with(16, j, t, c, 15, 32, r, a);
    below_32_14(r - c, x)
}

pub fn below_32_16(r: u64, a: u64) -> u64
    requires { Sought 64 16 32 r a }
    ensures { result ≡ a + value 16 r }
{
    if r < 1 {
        return descent_16::below_16_16(r, below(16, 1, 16, 32, r, a));
    }
    let j = rows(16, 16, 1, 16, 32, r, a);
    let t = middle(16, 8, j, 16, r);
    let j = half(16, 8, j, t, halves_low::lower_16(t), 16, r);
    let t = middle(16, 4, j, 16, r);
    let j = half(16, 4, j, t, halves_low::lower_16(t), 16, r);
    let t = middle(16, 2, j, 16, r);
    let j = half(16, 2, j, t, halves_low::lower_16(t), 16, r);
    let t = middle(16, 1, j, 16, r);
    let j = half(16, 1, j, t, halves_low::lower_16(t), 16, r);
    let t = 16 + j;
    let c = halves_low::lower_16(t);
    let x = with(16, j, t, c, 16, 32, r, a);
    below_32_15(r - c, x)
}

pub fn below_32_17(r: u64, a: u64) -> u64
    requires { Sought 64 17 32 r a }
    ensures { result ≡ a + value 17 r }
{
    let j = rows(16, 16, 0, 17, 32, r, a);
    let t = middle(16, 8, j, 17, r);
    let j = half(16, 8, j, t, halves_high::lower_17(t), 17, r);
    let t = middle(16, 4, j, 17, r);
    let j = half(16, 4, j, t, halves_high::lower_17(t), 17, r);
    let t = middle(16, 2, j, 17, r);
    let j = half(16, 2, j, t, halves_high::lower_17(t), 17, r);
    let t = middle(16, 1, j, 17, r);
    let j = half(16, 1, j, t, halves_high::lower_17(t), 17, r);
    let t = 16 + j;
    let c = halves_high::lower_17(t);
    let x = with(16, j, t, c, 17, 32, r, a);
    below_32_16(r - c, x)
}

pub fn below_32_18(r: u64, a: u64) -> u64
    requires { Sought 64 18 32 r a }
    ensures { result ≡ a + value 18 r }
{
    let j = rows(16, 16, 0, 18, 32, r, a);
    let t = middle(16, 8, j, 18, r);
    let j = half(16, 8, j, t, halves_high::lower_18(t), 18, r);
    let t = middle(16, 4, j, 18, r);
    let j = half(16, 4, j, t, halves_high::lower_18(t), 18, r);
    let t = middle(16, 2, j, 18, r);
    let j = half(16, 2, j, t, halves_high::lower_18(t), 18, r);
    let t = middle(16, 1, j, 18, r);
    let j = half(16, 1, j, t, halves_high::lower_18(t), 18, r);
    let t = 16 + j;
    let c = halves_high::lower_18(t);
    let x = with(16, j, t, c, 18, 32, r, a);
    below_32_17(r - c, x)
}

pub fn below_32_19(r: u64, a: u64) -> u64
    requires { Sought 64 19 32 r a }
    ensures { result ≡ a + value 19 r }
{
    let j = rows(16, 16, 0, 19, 32, r, a);
    let t = middle(16, 8, j, 19, r);
    let j = half(16, 8, j, t, halves_high::lower_19(t), 19, r);
    let t = middle(16, 4, j, 19, r);
    let j = half(16, 4, j, t, halves_high::lower_19(t), 19, r);
    let t = middle(16, 2, j, 19, r);
    let j = half(16, 2, j, t, halves_high::lower_19(t), 19, r);
    let t = middle(16, 1, j, 19, r);
    let j = half(16, 1, j, t, halves_high::lower_19(t), 19, r);
    let t = 16 + j;
    let c = halves_high::lower_19(t);
    let x = with(16, j, t, c, 19, 32, r, a);
    below_32_18(r - c, x)
}

pub fn below_32_20(r: u64, a: u64) -> u64
    requires { Sought 64 20 32 r a }
    ensures { result ≡ a + value 20 r }
{
    let j = rows(16, 16, 0, 20, 32, r, a);
    let t = middle(16, 8, j, 20, r);
    let j = half(16, 8, j, t, halves_high::lower_20(t), 20, r);
    let t = middle(16, 4, j, 20, r);
    let j = half(16, 4, j, t, halves_high::lower_20(t), 20, r);
    let t = middle(16, 2, j, 20, r);
    let j = half(16, 2, j, t, halves_high::lower_20(t), 20, r);
    let t = middle(16, 1, j, 20, r);
    let j = half(16, 1, j, t, halves_high::lower_20(t), 20, r);
    let t = 16 + j;
    let c = halves_high::lower_20(t);
    let x = with(16, j, t, c, 20, 32, r, a);
    below_32_19(r - c, x)
}

pub fn below_32_21(r: u64, a: u64) -> u64
    requires { Sought 64 21 32 r a }
    ensures { result ≡ a + value 21 r }
{
    let j = rows(16, 16, 0, 21, 32, r, a);
    let t = middle(16, 8, j, 21, r);
    let j = half(16, 8, j, t, halves_high::lower_21(t), 21, r);
    let t = middle(16, 4, j, 21, r);
    let j = half(16, 4, j, t, halves_high::lower_21(t), 21, r);
    let t = middle(16, 2, j, 21, r);
    let j = half(16, 2, j, t, halves_high::lower_21(t), 21, r);
    let t = middle(16, 1, j, 21, r);
    let j = half(16, 1, j, t, halves_high::lower_21(t), 21, r);
    let t = 16 + j;
    let c = halves_high::lower_21(t);
    let x = with(16, j, t, c, 21, 32, r, a);
    below_32_20(r - c, x)
}

pub fn below_32_22(r: u64, a: u64) -> u64
    requires { Sought 64 22 32 r a }
    ensures { result ≡ a + value 22 r }
{
    let j = rows(16, 16, 0, 22, 32, r, a);
    let t = middle(16, 8, j, 22, r);
    let j = half(16, 8, j, t, halves_high::lower_22(t), 22, r);
    let t = middle(16, 4, j, 22, r);
    let j = half(16, 4, j, t, halves_high::lower_22(t), 22, r);
    let t = middle(16, 2, j, 22, r);
    let j = half(16, 2, j, t, halves_high::lower_22(t), 22, r);
    let t = middle(16, 1, j, 22, r);
    let j = half(16, 1, j, t, halves_high::lower_22(t), 22, r);
    let t = 16 + j;
    let c = halves_high::lower_22(t);
    let x = with(16, j, t, c, 22, 32, r, a);
    below_32_21(r - c, x)
}

pub fn below_32_23(r: u64, a: u64) -> u64
    requires { Sought 64 23 32 r a }
    ensures { result ≡ a + value 23 r }
{
    let j = rows(16, 16, 0, 23, 32, r, a);
    let t = middle(16, 8, j, 23, r);
    let j = half(16, 8, j, t, halves_high::lower_23(t), 23, r);
    let t = middle(16, 4, j, 23, r);
    let j = half(16, 4, j, t, halves_high::lower_23(t), 23, r);
    let t = middle(16, 2, j, 23, r);
    let j = half(16, 2, j, t, halves_high::lower_23(t), 23, r);
    let t = middle(16, 1, j, 23, r);
    let j = half(16, 1, j, t, halves_high::lower_23(t), 23, r);
    let t = 16 + j;
    let c = halves_high::lower_23(t);
    let x = with(16, j, t, c, 23, 32, r, a);
    below_32_22(r - c, x)
}

pub fn below_32_24(r: u64, a: u64) -> u64
    requires { Sought 64 24 32 r a }
    ensures { result ≡ a + value 24 r }
{
    let j = rows(16, 16, 0, 24, 32, r, a);
    let t = middle(16, 8, j, 24, r);
    let j = half(16, 8, j, t, halves_high::lower_24(t), 24, r);
    let t = middle(16, 4, j, 24, r);
    let j = half(16, 4, j, t, halves_high::lower_24(t), 24, r);
    let t = middle(16, 2, j, 24, r);
    let j = half(16, 2, j, t, halves_high::lower_24(t), 24, r);
    let t = middle(16, 1, j, 24, r);
    let j = half(16, 1, j, t, halves_high::lower_24(t), 24, r);
    let t = 16 + j;
    let c = halves_high::lower_24(t);
    let x = with(16, j, t, c, 24, 32, r, a);
    below_32_23(r - c, x)
}

pub fn below_32_25(r: u64, a: u64) -> u64
    requires { Sought 64 25 32 r a }
    ensures { result ≡ a + value 25 r }
{
    let j = rows(24, 8, 0, 25, 32, r, a);
    let t = middle(24, 4, j, 25, r);
    let j = half(24, 4, j, t, halves_high::lower_25(t), 25, r);
    let t = middle(24, 2, j, 25, r);
    let j = half(24, 2, j, t, halves_high::lower_25(t), 25, r);
    let t = middle(24, 1, j, 25, r);
    let j = half(24, 1, j, t, halves_high::lower_25(t), 25, r);
    let t = 24 + j;
    let c = halves_high::lower_25(t);
    let x = with(24, j, t, c, 25, 32, r, a);
    below_32_24(r - c, x)
}

pub fn below_32_26(r: u64, a: u64) -> u64
    requires { Sought 64 26 32 r a }
    ensures { result ≡ a + value 26 r }
{
    let j = rows(24, 8, 0, 26, 32, r, a);
    let t = middle(24, 4, j, 26, r);
    let j = half(24, 4, j, t, halves_high::lower_26(t), 26, r);
    let t = middle(24, 2, j, 26, r);
    let j = half(24, 2, j, t, halves_high::lower_26(t), 26, r);
    let t = middle(24, 1, j, 26, r);
    let j = half(24, 1, j, t, halves_high::lower_26(t), 26, r);
    let t = 24 + j;
    let c = halves_high::lower_26(t);
    let x = with(24, j, t, c, 26, 32, r, a);
    below_32_25(r - c, x)
}

pub fn below_32_27(r: u64, a: u64) -> u64
    requires { Sought 64 27 32 r a }
    ensures { result ≡ a + value 27 r }
{
    let j = rows(24, 8, 0, 27, 32, r, a);
    let t = middle(24, 4, j, 27, r);
    let j = half(24, 4, j, t, halves_high::lower_27(t), 27, r);
    let t = middle(24, 2, j, 27, r);
    let j = half(24, 2, j, t, halves_high::lower_27(t), 27, r);
    let t = middle(24, 1, j, 27, r);
    let j = half(24, 1, j, t, halves_high::lower_27(t), 27, r);
    let t = 24 + j;
    let c = halves_high::lower_27(t);
    let x = with(24, j, t, c, 27, 32, r, a);
    below_32_26(r - c, x)
}

pub fn below_32_28(r: u64, a: u64) -> u64
    requires { Sought 64 28 32 r a }
    ensures { result ≡ a + value 28 r }
{
    let j = rows(24, 8, 0, 28, 32, r, a);
    let t = middle(24, 4, j, 28, r);
    let j = half(24, 4, j, t, halves_high::lower_28(t), 28, r);
    let t = middle(24, 2, j, 28, r);
    let j = half(24, 2, j, t, halves_high::lower_28(t), 28, r);
    let t = middle(24, 1, j, 28, r);
    let j = half(24, 1, j, t, halves_high::lower_28(t), 28, r);
    let t = 24 + j;
    let c = halves_high::lower_28(t);
    let x = with(24, j, t, c, 28, 32, r, a);
    below_32_27(r - c, x)
}

pub fn below_32_29(r: u64, a: u64) -> u64
    requires { Sought 64 29 32 r a }
    ensures { result ≡ a + value 29 r }
{
    let j = rows(28, 4, 0, 29, 32, r, a);
    let t = middle(28, 2, j, 29, r);
    let j = half(28, 2, j, t, halves_high::lower_29(t), 29, r);
    let t = middle(28, 1, j, 29, r);
    let j = half(28, 1, j, t, halves_high::lower_29(t), 29, r);
    let t = 28 + j;
    let c = halves_high::lower_29(t);
    let x = with(28, j, t, c, 29, 32, r, a);
    below_32_28(r - c, x)
}

pub fn below_32_30(r: u64, a: u64) -> u64
    requires { Sought 64 30 32 r a }
    ensures { result ≡ a + value 30 r }
{
    let j = rows(28, 4, 0, 30, 32, r, a);
    let t = middle(28, 2, j, 30, r);
    let j = half(28, 2, j, t, halves_high::lower_30(t), 30, r);
    let t = middle(28, 1, j, 30, r);
    let j = half(28, 1, j, t, halves_high::lower_30(t), 30, r);
    let t = 28 + j;
    let c = halves_high::lower_30(t);
    let x = with(28, j, t, c, 30, 32, r, a);
    below_32_29(r - c, x)
}

pub fn below_32_31(r: u64, a: u64) -> u64
    requires { Sought 64 31 32 r a }
    ensures { result ≡ a + value 31 r }
{
    let j = rows(30, 2, 0, 31, 32, r, a);
    let t = middle(30, 1, j, 31, r);
    let j = half(30, 1, j, t, halves_high::lower_31(t), 31, r);
    let t = 30 + j;
    let c = halves_high::lower_31(t);
    let x = with(30, j, t, c, 31, 32, r, a);
    below_32_30(r - c, x)
}

pub fn below_32_32(r: u64, a: u64) -> u64
    requires { Sought 64 32 32 r a }
    ensures { result ≡ a + value 32 r }
{
    let j = rows(31, 1, 0, 32, 32, r, a);
    let t = 31 + j;
    let c = halves_high::lower_32(t);
    let x = with(31, j, t, c, 32, 32, r, a);
    below_32_31(r - c, x)
}
