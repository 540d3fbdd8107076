// The sets of 2 to 32 numbers by their rank, each number found by halving its column (document 01, "Terms and their order"). Made by tools/halves.py.
// The rows are cut at 48, 32, 16 and 8. The link `below_s_k` has k numbers of rank r to find, all below the cut s, and a holds those that are found. One
// comparison says whether they are below the next cut too, and then that cut's link takes over, for good. Otherwise the highest is one of the rows between
// the two cuts, at most 16; each comparison halves these, with no branch, and what is left goes to the link for one number fewer.
// Here are the links below 48; those of the lower cuts are in crates of their own.
#![tactic(auto)]

ghost use Rattle.std.specs.Prelude.{◌≡◌, ◌+◌};
ghost use Rattle.halving.specs.Search.{value, Sought};

use halving::{below, half, last, middle, rows, with};

pub fn below_48_2(r: u64, a: u64) -> u64
    requires { Sought 64 2 48 r a }
    ensures { result ≡ a + value 2 r }
{
    if r < 496 {
        return descent_32::below_32_2(r, below(32, 496, 2, 48, r, a));
    }
    let j = rows(32, 16, 496, 2, 48, r, a);
    let t = middle(32, 8, j, 2, r);
    let j = half(32, 8, j, t, halves_low::upper_2(t), 2, r);
    let t = middle(32, 4, j, 2, r);
    let j = half(32, 4, j, t, halves_low::upper_2(t), 2, r);
    let t = middle(32, 2, j, 2, r);
    let j = half(32, 2, j, t, halves_low::upper_2(t), 2, r);
    let t = middle(32, 1, j, 2, r);
    let j = half(32, 1, j, t, halves_low::upper_2(t), 2, r);
    let t = 32 + j;
    let c = halves_low::upper_2(t);
    let x = with(32, j, t, c, 2, 48, r, a);
    last(48, r - c, x)
}

pub fn below_48_3(r: u64, a: u64) -> u64
    requires { Sought 64 3 48 r a }
    ensures { result ≡ a + value 3 r }
{
    if r < 4960 {
        return descent_32::below_32_3(r, below(32, 4960, 3, 48, r, a));
    }
    let j = rows(32, 16, 4960, 3, 48, r, a);
    let t = middle(32, 8, j, 3, r);
    let j = half(32, 8, j, t, halves_low::upper_3(t), 3, r);
    let t = middle(32, 4, j, 3, r);
    let j = half(32, 4, j, t, halves_low::upper_3(t), 3, r);
    let t = middle(32, 2, j, 3, r);
    let j = half(32, 2, j, t, halves_low::upper_3(t), 3, r);
    let t = middle(32, 1, j, 3, r);
    let j = half(32, 1, j, t, halves_low::upper_3(t), 3, r);
    let t = 32 + j;
    let c = halves_low::upper_3(t);
    let x = with(32, j, t, c, 3, 48, r, a);
    below_48_2(r - c, x)
}

pub fn below_48_4(r: u64, a: u64) -> u64
    requires { Sought 64 4 48 r a }
    ensures { result ≡ a + value 4 r }
{
    if r < 35960 {
        return descent_32::below_32_4(r, below(32, 35960, 4, 48, r, a));
    }
    let j = rows(32, 16, 35960, 4, 48, r, a);
    let t = middle(32, 8, j, 4, r);
    let j = half(32, 8, j, t, halves_low::upper_4(t), 4, r);
    let t = middle(32, 4, j, 4, r);
    let j = half(32, 4, j, t, halves_low::upper_4(t), 4, r);
    let t = middle(32, 2, j, 4, r);
    let j = half(32, 2, j, t, halves_low::upper_4(t), 4, r);
    let t = middle(32, 1, j, 4, r);
    let j = half(32, 1, j, t, halves_low::upper_4(t), 4, r);
    let t = 32 + j;
    let c = halves_low::upper_4(t);
    let x = with(32, j, t, c, 4, 48, r, a);
    below_48_3(r - c, x)
}

pub fn below_48_5(r: u64, a: u64) -> u64
    requires { Sought 64 5 48 r a }
    ensures { result ≡ a + value 5 r }
{
    if r < 201376 {
        return descent_32::below_32_5(r, below(32, 201376, 5, 48, r, a));
    }
    let j = rows(32, 16, 201376, 5, 48, r, a);
    let t = middle(32, 8, j, 5, r);
    let j = half(32, 8, j, t, halves_low::upper_5(t), 5, r);
    let t = middle(32, 4, j, 5, r);
    let j = half(32, 4, j, t, halves_low::upper_5(t), 5, r);
    let t = middle(32, 2, j, 5, r);
    let j = half(32, 2, j, t, halves_low::upper_5(t), 5, r);
    let t = middle(32, 1, j, 5, r);
    let j = half(32, 1, j, t, halves_low::upper_5(t), 5, r);
    let t = 32 + j;
    let c = halves_low::upper_5(t);
    let x = with(32, j, t, c, 5, 48, r, a);
    below_48_4(r - c, x)
}

pub fn below_48_6(r: u64, a: u64) -> u64
    requires { Sought 64 6 48 r a }
    ensures { result ≡ a + value 6 r }
{
    if r < 906192 {
        return descent_32::below_32_6(r, below(32, 906192, 6, 48, r, a));
    }
    let j = rows(32, 16, 906192, 6, 48, r, a);
    let t = middle(32, 8, j, 6, r);
    let j = half(32, 8, j, t, halves_low::upper_6(t), 6, r);
    let t = middle(32, 4, j, 6, r);
    let j = half(32, 4, j, t, halves_low::upper_6(t), 6, r);
    let t = middle(32, 2, j, 6, r);
    let j = half(32, 2, j, t, halves_low::upper_6(t), 6, r);
    let t = middle(32, 1, j, 6, r);
    let j = half(32, 1, j, t, halves_low::upper_6(t), 6, r);
    let t = 32 + j;
    let c = halves_low::upper_6(t);
    let x = with(32, j, t, c, 6, 48, r, a);
    below_48_5(r - c, x)
}

pub fn below_48_7(r: u64, a: u64) -> u64
    requires { Sought 64 7 48 r a }
    ensures { result ≡ a + value 7 r }
{
    if r < 3365856 {
        return descent_32::below_32_7(r, below(32, 3365856, 7, 48, r, a));
    }
    let j = rows(32, 16, 3365856, 7, 48, r, a);
    let t = middle(32, 8, j, 7, r);
    let j = half(32, 8, j, t, halves_low::upper_7(t), 7, r);
    let t = middle(32, 4, j, 7, r);
    let j = half(32, 4, j, t, halves_low::upper_7(t), 7, r);
    let t = middle(32, 2, j, 7, r);
    let j = half(32, 2, j, t, halves_low::upper_7(t), 7, r);
    let t = middle(32, 1, j, 7, r);
    let j = half(32, 1, j, t, halves_low::upper_7(t), 7, r);
    let t = 32 + j;
    let c = halves_low::upper_7(t);
    let x = with(32, j, t, c, 7, 48, r, a);
    below_48_6(r - c, x)
}

pub fn below_48_8(r: u64, a: u64) -> u64
    requires { Sought 64 8 48 r a }
    ensures { result ≡ a + value 8 r }
{
    if r < 10518300 {
        return descent_32::below_32_8(r, below(32, 10518300, 8, 48, r, a));
    }
    let j = rows(32, 16, 10518300, 8, 48, r, a);
    let t = middle(32, 8, j, 8, r);
    let j = half(32, 8, j, t, halves_low::upper_8(t), 8, r);
    let t = middle(32, 4, j, 8, r);
    let j = half(32, 4, j, t, halves_low::upper_8(t), 8, r);
    let t = middle(32, 2, j, 8, r);
    let j = half(32, 2, j, t, halves_low::upper_8(t), 8, r);
    let t = middle(32, 1, j, 8, r);
    let j = half(32, 1, j, t, halves_low::upper_8(t), 8, r);
    let t = 32 + j;
    let c = halves_low::upper_8(t);
    let x = with(32, j, t, c, 8, 48, r, a);
    below_48_7(r - c, x)
}

pub fn below_48_9(r: u64, a: u64) -> u64
    requires { Sought 64 9 48 r a }
    ensures { result ≡ a + value 9 r }
{
    if r < 28048800 {
        return descent_32::below_32_9(r, below(32, 28048800, 9, 48, r, a));
    }
    let j = rows(32, 16, 28048800, 9, 48, r, a);
    let t = middle(32, 8, j, 9, r);
    let j = half(32, 8, j, t, halves_low::upper_9(t), 9, r);
    let t = middle(32, 4, j, 9, r);
    let j = half(32, 4, j, t, halves_low::upper_9(t), 9, r);
    let t = middle(32, 2, j, 9, r);
    let j = half(32, 2, j, t, halves_low::upper_9(t), 9, r);
    let t = middle(32, 1, j, 9, r);
    let j = half(32, 1, j, t, halves_low::upper_9(t), 9, r);
    let t = 32 + j;
    let c = halves_low::upper_9(t);
    let x = with(32, j, t, c, 9, 48, r, a);
    below_48_8(r - c, x)
}

pub fn below_48_10(r: u64, a: u64) -> u64
    requires { Sought 64 10 48 r a }
    ensures { result ≡ a + value 10 r }
{
    if r < 64512240 {
        return descent_32::below_32_10(r, below(32, 64512240, 10, 48, r, a));
    }
    let j = rows(32, 16, 64512240, 10, 48, r, a);
    let t = middle(32, 8, j, 10, r);
    let j = half(32, 8, j, t, halves_low::upper_10(t), 10, r);
    let t = middle(32, 4, j, 10, r);
    let j = half(32, 4, j, t, halves_low::upper_10(t), 10, r);
    let t = middle(32, 2, j, 10, r);
    let j = half(32, 2, j, t, halves_low::upper_10(t), 10, r);
    let t = middle(32, 1, j, 10, r);
    let j = half(32, 1, j, t, halves_low::upper_10(t), 10, r);
    let t = 32 + j;
    let c = halves_low::upper_10(t);
    let x = with(32, j, t, c, 10, 48, r, a);
    below_48_9(r - c, x)
}

pub fn below_48_11(r: u64, a: u64) -> u64
    requires { Sought 64 11 48 r a }
    ensures { result ≡ a + value 11 r }
{
    if r < 129024480 {
        return descent_32::below_32_11(r, below(32, 129024480, 11, 48, r, a));
    }
    let j = rows(32, 16, 129024480, 11, 48, r, a);
    let t = middle(32, 8, j, 11, r);
    let j = half(32, 8, j, t, halves_low::upper_11(t), 11, r);
    let t = middle(32, 4, j, 11, r);
    let j = half(32, 4, j, t, halves_low::upper_11(t), 11, r);
    let t = middle(32, 2, j, 11, r);
    let j = half(32, 2, j, t, halves_low::upper_11(t), 11, r);
    let t = middle(32, 1, j, 11, r);
    let j = half(32, 1, j, t, halves_low::upper_11(t), 11, r);
    let t = 32 + j;
    let c = halves_low::upper_11(t);
    let x = with(32, j, t, c, 11, 48, r, a);
    below_48_10(r - c, x)
}

pub fn below_48_12(r: u64, a: u64) -> u64
    requires { Sought 64 12 48 r a }
    ensures { result ≡ a + value 12 r }
{
    if r < 225792840 {
        return descent_32::below_32_12(r, below(32, 225792840, 12, 48, r, a));
    }
    let j = rows(32, 16, 225792840, 12, 48, r, a);
    let t = middle(32, 8, j, 12, r);
    let j = half(32, 8, j, t, halves_low::upper_12(t), 12, r);
    let t = middle(32, 4, j, 12, r);
    let j = half(32, 4, j, t, halves_low::upper_12(t), 12, r);
    let t = middle(32, 2, j, 12, r);
    let j = half(32, 2, j, t, halves_low::upper_12(t), 12, r);
    let t = middle(32, 1, j, 12, r);
    let j = half(32, 1, j, t, halves_low::upper_12(t), 12, r);
    let t = 32 + j;
    let c = halves_low::upper_12(t);
    let x = with(32, j, t, c, 12, 48, r, a);
    below_48_11(r - c, x)
}

pub fn below_48_13(r: u64, a: u64) -> u64
    requires { Sought 64 13 48 r a }
    ensures { result ≡ a + value 13 r }
{
    if r < 347373600 {
        return descent_32::below_32_13(r, below(32, 347373600, 13, 48, r, a));
    }
    let j = rows(32, 16, 347373600, 13, 48, r, a);
    let t = middle(32, 8, j, 13, r);
    let j = half(32, 8, j, t, halves_low::upper_13(t), 13, r);
    let t = middle(32, 4, j, 13, r);
    let j = half(32, 4, j, t, halves_low::upper_13(t), 13, r);
    let t = middle(32, 2, j, 13, r);
    let j = half(32, 2, j, t, halves_low::upper_13(t), 13, r);
    let t = middle(32, 1, j, 13, r);
    let j = half(32, 1, j, t, halves_low::upper_13(t), 13, r);
    let t = 32 + j;
    let c = halves_low::upper_13(t);
    let x = with(32, j, t, c, 13, 48, r, a);
    below_48_12(r - c, x)
}

pub fn below_48_14(r: u64, a: u64) -> u64
    requires { Sought 64 14 48 r a }
    ensures { result ≡ a + value 14 r }
{
    if r < 471435600 {
        return descent_32::below_32_14(r, below(32, 471435600, 14, 48, r, a));
    }
    let j = rows(32, 16, 471435600, 14, 48, r, a);
    let t = middle(32, 8, j, 14, r);
    let j = half(32, 8, j, t, halves_low::upper_14(t), 14, r);
    let t = middle(32, 4, j, 14, r);
    let j = half(32, 4, j, t, halves_low::upper_14(t), 14, r);
    let t = middle(32, 2, j, 14, r);
    let j = half(32, 2, j, t, halves_low::upper_14(t), 14, r);
    let t = middle(32, 1, j, 14, r);
    let j = half(32, 1, j, t, halves_low::upper_14(t), 14, r);
    let t = 32 + j;
    let c = halves_low::upper_14(t);
    let x = with(32, j, t, c, 14, 48, r, a);
    below_48_13(r - c, x)
}

pub fn below_48_15(r: u64, a: u64) -> u64
    requires { Sought 64 15 48 r a }
    ensures { result ≡ a + value 15 r }
{
    if r < 565722720 {
        return descent_32::below_32_15(r, below(32, 565722720, 15, 48, r, a));
    }
    let j = rows(32, 16, 565722720, 15, 48, r, a);
    let t = middle(32, 8, j, 15, r);
    let j = half(32, 8, j, t, halves_low::upper_15(t), 15, r);
    let t = middle(32, 4, j, 15, r);
    let j = half(32, 4, j, t, halves_low::upper_15(t), 15, r);
    let t = middle(32, 2, j, 15, r);
    let j = half(32, 2, j, t, halves_low::upper_15(t), 15, r);
    let t = middle(32, 1, j, 15, r);
    let j = half(32, 1, j, t, halves_low::upper_15(t), 15, r);
    let t = 32 + j;
    let c = halves_low::upper_15(t);
    let x = with(32, j, t, c, 15, 48, r, a);
    below_48_14(r - c, x)
}

pub fn below_48_16(r: u64, a: u64) -> u64
    requires { Sought 64 16 48 r a }
    ensures { result ≡ a + value 16 r }
{
    if r < 601080390 {
        return descent_32::below_32_16(r, below(32, 601080390, 16, 48, r, a));
    }
    let j = rows(32, 16, 601080390, 16, 48, r, a);
    let t = middle(32, 8, j, 16, r);
    let j = half(32, 8, j, t, halves_low::upper_16(t), 16, r);
    let t = middle(32, 4, j, 16, r);
    let j = half(32, 4, j, t, halves_low::upper_16(t), 16, r);
    let t = middle(32, 2, j, 16, r);
    let j = half(32, 2, j, t, halves_low::upper_16(t), 16, r);
    let t = middle(32, 1, j, 16, r);
    let j = half(32, 1, j, t, halves_low::upper_16(t), 16, r);
    let t = 32 + j;
    let c = halves_low::upper_16(t);
    let x = with(32, j, t, c, 16, 48, r, a);
    below_48_15(r - c, x)
}

pub fn below_48_17(r: u64, a: u64) -> u64
    requires { Sought 64 17 48 r a }
    ensures { result ≡ a + value 17 r }
{
    if r < 565722720 {
        return descent_32::below_32_17(r, below(32, 565722720, 17, 48, r, a));
    }
    let j = rows(32, 16, 565722720, 17, 48, r, a);
    let t = middle(32, 8, j, 17, r);
    let j = half(32, 8, j, t, halves_high::upper_17(t), 17, r);
    let t = middle(32, 4, j, 17, r);
    let j = half(32, 4, j, t, halves_high::upper_17(t), 17, r);
    let t = middle(32, 2, j, 17, r);
    let j = half(32, 2, j, t, halves_high::upper_17(t), 17, r);
    let t = middle(32, 1, j, 17, r);
    let j = half(32, 1, j, t, halves_high::upper_17(t), 17, r);
    let t = 32 + j;
    let c = halves_high::upper_17(t);
    let x = with(32, j, t, c, 17, 48, r, a);
    below_48_16(r - c, x)
}

pub fn below_48_18(r: u64, a: u64) -> u64
    requires { Sought 64 18 48 r a }
    ensures { result ≡ a + value 18 r }
{
    if r < 471435600 {
        return descent_32::below_32_18(r, below(32, 471435600, 18, 48, r, a));
    }
    let j = rows(32, 16, 471435600, 18, 48, r, a);
    let t = middle(32, 8, j, 18, r);
    let j = half(32, 8, j, t, halves_high::upper_18(t), 18, r);
    let t = middle(32, 4, j, 18, r);
    let j = half(32, 4, j, t, halves_high::upper_18(t), 18, r);
    let t = middle(32, 2, j, 18, r);
    let j = half(32, 2, j, t, halves_high::upper_18(t), 18, r);
    let t = middle(32, 1, j, 18, r);
    let j = half(32, 1, j, t, halves_high::upper_18(t), 18, r);
    let t = 32 + j;
    let c = halves_high::upper_18(t);
    let x = with(32, j, t, c, 18, 48, r, a);
    below_48_17(r - c, x)
}

pub fn below_48_19(r: u64, a: u64) -> u64
    requires { Sought 64 19 48 r a }
    ensures { result ≡ a + value 19 r }
{
    if r < 347373600 {
        return descent_32::below_32_19(r, below(32, 347373600, 19, 48, r, a));
    }
    let j = rows(32, 16, 347373600, 19, 48, r, a);
    let t = middle(32, 8, j, 19, r);
    let j = half(32, 8, j, t, halves_high::upper_19(t), 19, r);
    let t = middle(32, 4, j, 19, r);
    let j = half(32, 4, j, t, halves_high::upper_19(t), 19, r);
    let t = middle(32, 2, j, 19, r);
    let j = half(32, 2, j, t, halves_high::upper_19(t), 19, r);
    let t = middle(32, 1, j, 19, r);
    let j = half(32, 1, j, t, halves_high::upper_19(t), 19, r);
    let t = 32 + j;
    let c = halves_high::upper_19(t);
    let x = with(32, j, t, c, 19, 48, r, a);
    below_48_18(r - c, x)
}

pub fn below_48_20(r: u64, a: u64) -> u64
    requires { Sought 64 20 48 r a }
    ensures { result ≡ a + value 20 r }
{
    if r < 225792840 {
        return descent_32::below_32_20(r, below(32, 225792840, 20, 48, r, a));
    }
    let j = rows(32, 16, 225792840, 20, 48, r, a);
    let t = middle(32, 8, j, 20, r);
    let j = half(32, 8, j, t, halves_high::upper_20(t), 20, r);
    let t = middle(32, 4, j, 20, r);
    let j = half(32, 4, j, t, halves_high::upper_20(t), 20, r);
    let t = middle(32, 2, j, 20, r);
    let j = half(32, 2, j, t, halves_high::upper_20(t), 20, r);
    let t = middle(32, 1, j, 20, r);
    let j = half(32, 1, j, t, halves_high::upper_20(t), 20, r);
    let t = 32 + j;
    let c = halves_high::upper_20(t);
    let x = with(32, j, t, c, 20, 48, r, a);
    below_48_19(r - c, x)
}

pub fn below_48_21(r: u64, a: u64) -> u64
    requires { Sought 64 21 48 r a }
    ensures { result ≡ a + value 21 r }
{
    if r < 129024480 {
        return descent_32::below_32_21(r, below(32, 129024480, 21, 48, r, a));
    }
    let j = rows(32, 16, 129024480, 21, 48, r, a);
    let t = middle(32, 8, j, 21, r);
    let j = half(32, 8, j, t, halves_high::upper_21(t), 21, r);
    let t = middle(32, 4, j, 21, r);
    let j = half(32, 4, j, t, halves_high::upper_21(t), 21, r);
    let t = middle(32, 2, j, 21, r);
    let j = half(32, 2, j, t, halves_high::upper_21(t), 21, r);
    let t = middle(32, 1, j, 21, r);
    let j = half(32, 1, j, t, halves_high::upper_21(t), 21, r);
    let t = 32 + j;
    let c = halves_high::upper_21(t);
    let x = with(32, j, t, c, 21, 48, r, a);
    below_48_20(r - c, x)
}

pub fn below_48_22(r: u64, a: u64) -> u64
    requires { Sought 64 22 48 r a }
    ensures { result ≡ a + value 22 r }
{
    if r < 64512240 {
        return descent_32::below_32_22(r, below(32, 64512240, 22, 48, r, a));
    }
    let j = rows(32, 16, 64512240, 22, 48, r, a);
    let t = middle(32, 8, j, 22, r);
    let j = half(32, 8, j, t, halves_high::upper_22(t), 22, r);
    let t = middle(32, 4, j, 22, r);
    let j = half(32, 4, j, t, halves_high::upper_22(t), 22, r);
    let t = middle(32, 2, j, 22, r);
    let j = half(32, 2, j, t, halves_high::upper_22(t), 22, r);
    let t = middle(32, 1, j, 22, r);
    let j = half(32, 1, j, t, halves_high::upper_22(t), 22, r);
    let t = 32 + j;
    let c = halves_high::upper_22(t);
    let x = with(32, j, t, c, 22, 48, r, a);
    below_48_21(r - c, x)
}

pub fn below_48_23(r: u64, a: u64) -> u64
    requires { Sought 64 23 48 r a }
    ensures { result ≡ a + value 23 r }
{
    if r < 28048800 {
        return descent_32::below_32_23(r, below(32, 28048800, 23, 48, r, a));
    }
    let j = rows(32, 16, 28048800, 23, 48, r, a);
    let t = middle(32, 8, j, 23, r);
    let j = half(32, 8, j, t, halves_high::upper_23(t), 23, r);
    let t = middle(32, 4, j, 23, r);
    let j = half(32, 4, j, t, halves_high::upper_23(t), 23, r);
    let t = middle(32, 2, j, 23, r);
    let j = half(32, 2, j, t, halves_high::upper_23(t), 23, r);
    let t = middle(32, 1, j, 23, r);
    let j = half(32, 1, j, t, halves_high::upper_23(t), 23, r);
    let t = 32 + j;
    let c = halves_high::upper_23(t);
    let x = with(32, j, t, c, 23, 48, r, a);
    below_48_22(r - c, x)
}

pub fn below_48_24(r: u64, a: u64) -> u64
    requires { Sought 64 24 48 r a }
    ensures { result ≡ a + value 24 r }
{
    if r < 10518300 {
        return descent_32::below_32_24(r, below(32, 10518300, 24, 48, r, a));
    }
    let j = rows(32, 16, 10518300, 24, 48, r, a);
    let t = middle(32, 8, j, 24, r);
    let j = half(32, 8, j, t, halves_high::upper_24(t), 24, r);
    let t = middle(32, 4, j, 24, r);
    let j = half(32, 4, j, t, halves_high::upper_24(t), 24, r);
    let t = middle(32, 2, j, 24, r);
    let j = half(32, 2, j, t, halves_high::upper_24(t), 24, r);
    let t = middle(32, 1, j, 24, r);
    let j = half(32, 1, j, t, halves_high::upper_24(t), 24, r);
    let t = 32 + j;
    let c = halves_high::upper_24(t);
    let x = with(32, j, t, c, 24, 48, r, a);
    below_48_23(r - c, x)
}

pub fn below_48_25(r: u64, a: u64) -> u64
    requires { Sought 64 25 48 r a }
    ensures { result ≡ a + value 25 r }
{
    if r < 3365856 {
        return descent_32::below_32_25(r, below(32, 3365856, 25, 48, r, a));
    }
    let j = rows(32, 16, 3365856, 25, 48, r, a);
    let t = middle(32, 8, j, 25, r);
    let j = half(32, 8, j, t, halves_high::upper_25(t), 25, r);
    let t = middle(32, 4, j, 25, r);
    let j = half(32, 4, j, t, halves_high::upper_25(t), 25, r);
    let t = middle(32, 2, j, 25, r);
    let j = half(32, 2, j, t, halves_high::upper_25(t), 25, r);
    let t = middle(32, 1, j, 25, r);
    let j = half(32, 1, j, t, halves_high::upper_25(t), 25, r);
    let t = 32 + j;
    let c = halves_high::upper_25(t);
    let x = with(32, j, t, c, 25, 48, r, a);
    below_48_24(r - c, x)
}

pub fn below_48_26(r: u64, a: u64) -> u64
    requires { Sought 64 26 48 r a }
    ensures { result ≡ a + value 26 r }
{
    if r < 906192 {
        return descent_32::below_32_26(r, below(32, 906192, 26, 48, r, a));
    }
    let j = rows(32, 16, 906192, 26, 48, r, a);
    let t = middle(32, 8, j, 26, r);
    let j = half(32, 8, j, t, halves_high::upper_26(t), 26, r);
    let t = middle(32, 4, j, 26, r);
    let j = half(32, 4, j, t, halves_high::upper_26(t), 26, r);
    let t = middle(32, 2, j, 26, r);
    let j = half(32, 2, j, t, halves_high::upper_26(t), 26, r);
    let t = middle(32, 1, j, 26, r);
    let j = half(32, 1, j, t, halves_high::upper_26(t), 26, r);
    let t = 32 + j;
    let c = halves_high::upper_26(t);
    let x = with(32, j, t, c, 26, 48, r, a);
    below_48_25(r - c, x)
}

pub fn below_48_27(r: u64, a: u64) -> u64
    requires { Sought 64 27 48 r a }
    ensures { result ≡ a + value 27 r }
{
    if r < 201376 {
        return descent_32::below_32_27(r, below(32, 201376, 27, 48, r, a));
    }
    let j = rows(32, 16, 201376, 27, 48, r, a);
    let t = middle(32, 8, j, 27, r);
    let j = half(32, 8, j, t, halves_high::upper_27(t), 27, r);
    let t = middle(32, 4, j, 27, r);
    let j = half(32, 4, j, t, halves_high::upper_27(t), 27, r);
    let t = middle(32, 2, j, 27, r);
    let j = half(32, 2, j, t, halves_high::upper_27(t), 27, r);
    let t = middle(32, 1, j, 27, r);
    let j = half(32, 1, j, t, halves_high::upper_27(t), 27, r);
    let t = 32 + j;
    let c = halves_high::upper_27(t);
    let x = with(32, j, t, c, 27, 48, r, a);
    below_48_26(r - c, x)
}

pub fn below_48_28(r: u64, a: u64) -> u64
    requires { Sought 64 28 48 r a }
    ensures { result ≡ a + value 28 r }
{
    if r < 35960 {
        return descent_32::below_32_28(r, below(32, 35960, 28, 48, r, a));
    }
    let j = rows(32, 16, 35960, 28, 48, r, a);
    let t = middle(32, 8, j, 28, r);
    let j = half(32, 8, j, t, halves_high::upper_28(t), 28, r);
    let t = middle(32, 4, j, 28, r);
    let j = half(32, 4, j, t, halves_high::upper_28(t), 28, r);
    let t = middle(32, 2, j, 28, r);
    let j = half(32, 2, j, t, halves_high::upper_28(t), 28, r);
    let t = middle(32, 1, j, 28, r);
    let j = half(32, 1, j, t, halves_high::upper_28(t), 28, r);
    let t = 32 + j;
    let c = halves_high::upper_28(t);
    let x = with(32, j, t, c, 28, 48, r, a);
    below_48_27(r - c, x)
}

pub fn below_48_29(r: u64, a: u64) -> u64
    requires { Sought 64 29 48 r a }
    ensures { result ≡ a + value 29 r }
{
    if r < 4960 {
        return descent_32::below_32_29(r, below(32, 4960, 29, 48, r, a));
    }
    let j = rows(32, 16, 4960, 29, 48, r, a);
    let t = middle(32, 8, j, 29, r);
    let j = half(32, 8, j, t, halves_high::upper_29(t), 29, r);
    let t = middle(32, 4, j, 29, r);
    let j = half(32, 4, j, t, halves_high::upper_29(t), 29, r);
    let t = middle(32, 2, j, 29, r);
    let j = half(32, 2, j, t, halves_high::upper_29(t), 29, r);
    let t = middle(32, 1, j, 29, r);
    let j = half(32, 1, j, t, halves_high::upper_29(t), 29, r);
    let t = 32 + j;
    let c = halves_high::upper_29(t);
    let x = with(32, j, t, c, 29, 48, r, a);
    below_48_28(r - c, x)
}

pub fn below_48_30(r: u64, a: u64) -> u64
    requires { Sought 64 30 48 r a }
    ensures { result ≡ a + value 30 r }
{
    if r < 496 {
        return descent_32::below_32_30(r, below(32, 496, 30, 48, r, a));
    }
    let j = rows(32, 16, 496, 30, 48, r, a);
    let t = middle(32, 8, j, 30, r);
    let j = half(32, 8, j, t, halves_high::upper_30(t), 30, r);
    let t = middle(32, 4, j, 30, r);
    let j = half(32, 4, j, t, halves_high::upper_30(t), 30, r);
    let t = middle(32, 2, j, 30, r);
    let j = half(32, 2, j, t, halves_high::upper_30(t), 30, r);
    let t = middle(32, 1, j, 30, r);
    let j = half(32, 1, j, t, halves_high::upper_30(t), 30, r);
    let t = 32 + j;
    let c = halves_high::upper_30(t);
    let x = with(32, j, t, c, 30, 48, r, a);
    below_48_29(r - c, x)
}

pub fn below_48_31(r: u64, a: u64) -> u64
    requires { Sought 64 31 48 r a }
    ensures { result ≡ a + value 31 r }
{
    if r < 32 {
        return descent_32::below_32_31(r, below(32, 32, 31, 48, r, a));
    }
    let j = rows(32, 16, 32, 31, 48, r, a);
    let t = middle(32, 8, j, 31, r);
    let j = half(32, 8, j, t, halves_high::upper_31(t), 31, r);
    let t = middle(32, 4, j, 31, r);
    let j = half(32, 4, j, t, halves_high::upper_31(t), 31, r);
    let t = middle(32, 2, j, 31, r);
    let j = half(32, 2, j, t, halves_high::upper_31(t), 31, r);
    let t = middle(32, 1, j, 31, r);
    let j = half(32, 1, j, t, halves_high::upper_31(t), 31, r);
    let t = 32 + j;
    let c = halves_high::upper_31(t);
    let x = with(32, j, t, c, 31, 48, r, a);
    below_48_30(r - c, x)
}

pub fn below_48_32(r: u64, a: u64) -> u64
    requires { Sought 64 32 48 r a }
    ensures { result ≡ a + value 32 r }
{
    if r < 1 {
        return descent_32::below_32_32(r, below(32, 1, 32, 48, r, a));
    }
    let j = rows(32, 16, 1, 32, 48, r, a);
    let t = middle(32, 8, j, 32, r);
    let j = half(32, 8, j, t, halves_high::upper_32(t), 32, r);
    let t = middle(32, 4, j, 32, r);
    let j = half(32, 4, j, t, halves_high::upper_32(t), 32, r);
    let t = middle(32, 2, j, 32, r);
    let j = half(32, 2, j, t, halves_high::upper_32(t), 32, r);
    let t = middle(32, 1, j, 32, r);
    let j = half(32, 1, j, t, halves_high::upper_32(t), 32, r);
    let t = 32 + j;
    let c = halves_high::upper_32(t);
    let x = with(32, j, t, c, 32, 48, r, a);
    below_48_31(r - c, x)
}
