// The sets of 2 to 32 numbers by their rank, each number found by halving its column (document 01, "Terms and their order"). Made by tools/halves.py.
// The rows are cut at 48, 32, 16 and 8. The link `below_s_k` has k numbers of rank r to find, all below the cut s, and a holds those that are found. One
// comparison says whether they are below the next cut too, and then that cut's link takes over, for good. Otherwise the highest is one of the rows between
// the two cuts, at most 16; each comparison halves these, with no branch, and what is left goes to the link for one number fewer.
// Here are the links below 8 and 16.
#![tactic(auto)]

ghost use Rattle.std.specs.Prelude.{◌≡◌, ◌+◌};
ghost use Rattle.halving.specs.Search.{value, Sought};

use halving::{below, half, last, middle, rows, with};

pub fn below_8_2(r: u64, a: u64) -> u64
    requires { Sought 64 2 8 r a }
    ensures { result ≡ a + value 2 r }
{
    let j = rows(0, 8, 0, 2, 8, r, a);
    let t = middle(0, 4, j, 2, r);
    let j = half(0, 4, j, t, halves_low::lower_2(t), 2, r);
    let t = middle(0, 2, j, 2, r);
    let j = half(0, 2, j, t, halves_low::lower_2(t), 2, r);
    let t = middle(0, 1, j, 2, r);
    let j = half(0, 1, j, t, halves_low::lower_2(t), 2, r);
    let t = 0 + j;
    let c = halves_low::lower_2(t);
    let x = with(0, j, t, c, 2, 8, r, a);
    last(8, r - c, x)
}

pub fn below_8_3(r: u64, a: u64) -> u64
    requires { Sought 64 3 8 r a }
    ensures { result ≡ a + value 3 r }
{
    let j = rows(0, 8, 0, 3, 8, r, a);
    let t = middle(0, 4, j, 3, r);
    let j = half(0, 4, j, t, halves_low::lower_3(t), 3, r);
    let t = middle(0, 2, j, 3, r);
    let j = half(0, 2, j, t, halves_low::lower_3(t), 3, r);
    let t = middle(0, 1, j, 3, r);
    let j = half(0, 1, j, t, halves_low::lower_3(t), 3, r);
    let t = 0 + j;
    let c = halves_low::lower_3(t);
    let x = with(0, j, t, c, 3, 8, r, a);
    below_8_2(r - c, x)
}

pub fn below_8_4(r: u64, a: u64) -> u64
    requires { Sought 64 4 8 r a }
    ensures { result ≡ a + value 4 r }
{
    let j = rows(0, 8, 0, 4, 8, r, a);
    let t = middle(0, 4, j, 4, r);
    let j = half(0, 4, j, t, halves_low::lower_4(t), 4, r);
    let t = middle(0, 2, j, 4, r);
    let j = half(0, 2, j, t, halves_low::lower_4(t), 4, r);
    let t = middle(0, 1, j, 4, r);
    let j = half(0, 1, j, t, halves_low::lower_4(t), 4, r);
    let t = 0 + j;
    let c = halves_low::lower_4(t);
    let x = with(0, j, t, c, 4, 8, r, a);
    below_8_3(r - c, x)
}

pub fn below_8_5(r: u64, a: u64) -> u64
    requires { Sought 64 5 8 r a }
    ensures { result ≡ a + value 5 r }
{
    let j = rows(4, 4, 0, 5, 8, r, a);
    let t = middle(4, 2, j, 5, r);
    let j = half(4, 2, j, t, halves_low::lower_5(t), 5, r);
    let t = middle(4, 1, j, 5, r);
    let j = half(4, 1, j, t, halves_low::lower_5(t), 5, r);
    let t = 4 + j;
    let c = halves_low::lower_5(t);
    let x = with(4, j, t, c, 5, 8, r, a);
    below_8_4(r - c, x)
}

pub fn below_8_6(r: u64, a: u64) -> u64
    requires { Sought 64 6 8 r a }
    ensures { result ≡ a + value 6 r }
{
    let j = rows(4, 4, 0, 6, 8, r, a);
    let t = middle(4, 2, j, 6, r);
    let j = half(4, 2, j, t, halves_low::lower_6(t), 6, r);
    let t = middle(4, 1, j, 6, r);
    let j = half(4, 1, j, t, halves_low::lower_6(t), 6, r);
    let t = 4 + j;
    let c = halves_low::lower_6(t);
    let x = with(4, j, t, c, 6, 8, r, a);
    below_8_5(r - c, x)
}

pub fn below_8_7(r: u64, a: u64) -> u64
    requires { Sought 64 7 8 r a }
    ensures { result ≡ a + value 7 r }
{
    let j = rows(6, 2, 0, 7, 8, r, a);
    let t = middle(6, 1, j, 7, r);
    let j = half(6, 1, j, t, halves_low::lower_7(t), 7, r);
    let t = 6 + j;
    let c = halves_low::lower_7(t);
    let x = with(6, j, t, c, 7, 8, r, a);
    below_8_6(r - c, x)
}

pub fn below_8_8(r: u64, a: u64) -> u64
    requires { Sought 64 8 8 r a }
    ensures { result ≡ a + value 8 r }
{
    let j = rows(7, 1, 0, 8, 8, r, a);
    let t = 7 + j;
    let c = halves_low::lower_8(t);
    let x = with(7, j, t, c, 8, 8, r, a);
    below_8_7(r - c, x)
}

pub fn below_16_2(r: u64, a: u64) -> u64
    requires { Sought 64 2 16 r a }
    ensures { result ≡ a + value 2 r }
{
    if r < 28 {
        return below_8_2(r, below(8, 28, 2, 16, r, a));
    }
    let j = rows(8, 8, 28, 2, 16, r, a);
    let t = middle(8, 4, j, 2, r);
    let j = half(8, 4, j, t, halves_low::lower_2(t), 2, r);
    let t = middle(8, 2, j, 2, r);
    let j = half(8, 2, j, t, halves_low::lower_2(t), 2, r);
    let t = middle(8, 1, j, 2, r);
    let j = half(8, 1, j, t, halves_low::lower_2(t), 2, r);
    let t = 8 + j;
    let c = halves_low::lower_2(t);
    let x = with(8, j, t, c, 2, 16, r, a);
    last(16, r - c, x)
}

pub fn below_16_3(r: u64, a: u64) -> u64
    requires { Sought 64 3 16 r a }
    ensures { result ≡ a + value 3 r }
{
    if r < 56 {
        return below_8_3(r, below(8, 56, 3, 16, r, a));
    }
    let j = rows(8, 8, 56, 3, 16, r, a);
    let t = middle(8, 4, j, 3, r);
    let j = half(8, 4, j, t, halves_low::lower_3(t), 3, r);
    let t = middle(8, 2, j, 3, r);
    let j = half(8, 2, j, t, halves_low::lower_3(t), 3, r);
    let t = middle(8, 1, j, 3, r);
    let j = half(8, 1, j, t, halves_low::lower_3(t), 3, r);
    let t = 8 + j;
    let c = halves_low::lower_3(t);
    let x = with(8, j, t, c, 3, 16, r, a);
    below_16_2(r - c, x)
}

pub fn below_16_4(r: u64, a: u64) -> u64
    requires { Sought 64 4 16 r a }
    ensures { result ≡ a + value 4 r }
{
    if r < 70 {
        return below_8_4(r, below(8, 70, 4, 16, r, a));
    }
    let j = rows(8, 8, 70, 4, 16, r, a);
    let t = middle(8, 4, j, 4, r);
    let j = half(8, 4, j, t, halves_low::lower_4(t), 4, r);
    let t = middle(8, 2, j, 4, r);
    let j = half(8, 2, j, t, halves_low::lower_4(t), 4, r);
    let t = middle(8, 1, j, 4, r);
    let j = half(8, 1, j, t, halves_low::lower_4(t), 4, r);
    let t = 8 + j;
    let c = halves_low::lower_4(t);
    let x = with(8, j, t, c, 4, 16, r, a);
    below_16_3(r - c, x)
}

pub fn below_16_5(r: u64, a: u64) -> u64
    requires { Sought 64 5 16 r a }
    ensures { result ≡ a + value 5 r }
{
    if r < 56 {
        return below_8_5(r, below(8, 56, 5, 16, r, a));
    }
    let j = rows(8, 8, 56, 5, 16, r, a);
    let t = middle(8, 4, j, 5, r);
    let j = half(8, 4, j, t, halves_low::lower_5(t), 5, r);
    let t = middle(8, 2, j, 5, r);
    let j = half(8, 2, j, t, halves_low::lower_5(t), 5, r);
    let t = middle(8, 1, j, 5, r);
    let j = half(8, 1, j, t, halves_low::lower_5(t), 5, r);
    let t = 8 + j;
    let c = halves_low::lower_5(t);
    let x = with(8, j, t, c, 5, 16, r, a);
    below_16_4(r - c, x)
}

pub fn below_16_6(r: u64, a: u64) -> u64
    requires { Sought 64 6 16 r a }
    ensures { result ≡ a + value 6 r }
{
    if r < 28 {
        return below_8_6(r, below(8, 28, 6, 16, r, a));
    }
    let j = rows(8, 8, 28, 6, 16, r, a);
    let t = middle(8, 4, j, 6, r);
    let j = half(8, 4, j, t, halves_low::lower_6(t), 6, r);
    let t = middle(8, 2, j, 6, r);
    let j = half(8, 2, j, t, halves_low::lower_6(t), 6, r);
    let t = middle(8, 1, j, 6, r);
    let j = half(8, 1, j, t, halves_low::lower_6(t), 6, r);
    let t = 8 + j;
    let c = halves_low::lower_6(t);
    let x = with(8, j, t, c, 6, 16, r, a);
    below_16_5(r - c, x)
}

pub fn below_16_7(r: u64, a: u64) -> u64
    requires { Sought 64 7 16 r a }
    ensures { result ≡ a + value 7 r }
{
    if r < 8 {
        return below_8_7(r, below(8, 8, 7, 16, r, a));
    }
    let j = rows(8, 8, 8, 7, 16, r, a);
    let t = middle(8, 4, j, 7, r);
    let j = half(8, 4, j, t, halves_low::lower_7(t), 7, r);
    let t = middle(8, 2, j, 7, r);
    let j = half(8, 2, j, t, halves_low::lower_7(t), 7, r);
    let t = middle(8, 1, j, 7, r);
    let j = half(8, 1, j, t, halves_low::lower_7(t), 7, r);
    let t = 8 + j;
    let c = halves_low::lower_7(t);
    let x = with(8, j, t, c, 7, 16, r, a);
    below_16_6(r - c, x)
}

pub fn below_16_8(r: u64, a: u64) -> u64
    requires { Sought 64 8 16 r a }
    ensures { result ≡ a + value 8 r }
{
    if r < 1 {
        return below_8_8(r, below(8, 1, 8, 16, r, a));
    }
    let j = rows(8, 8, 1, 8, 16, r, a);
    let t = middle(8, 4, j, 8, r);
    let j = half(8, 4, j, t, halves_low::lower_8(t), 8, r);
    let t = middle(8, 2, j, 8, r);
    let j = half(8, 2, j, t, halves_low::lower_8(t), 8, r);
    let t = middle(8, 1, j, 8, r);
    let j = half(8, 1, j, t, halves_low::lower_8(t), 8, r);
    let t = 8 + j;
    let c = halves_low::lower_8(t);
    let x = with(8, j, t, c, 8, 16, r, a);
    below_16_7(r - c, x)
}

pub fn below_16_9(r: u64, a: u64) -> u64
    requires { Sought 64 9 16 r a }
    ensures { result ≡ a + value 9 r }
{
    let j = rows(8, 8, 0, 9, 16, r, a);
    let t = middle(8, 4, j, 9, r);
    let j = half(8, 4, j, t, halves_low::lower_9(t), 9, r);
    let t = middle(8, 2, j, 9, r);
    let j = half(8, 2, j, t, halves_low::lower_9(t), 9, r);
    let t = middle(8, 1, j, 9, r);
    let j = half(8, 1, j, t, halves_low::lower_9(t), 9, r);
    let t = 8 + j;
    let c = halves_low::lower_9(t);
    let x = with(8, j, t, c, 9, 16, r, a);
    below_16_8(r - c, x)
}

pub fn below_16_10(r: u64, a: u64) -> u64
    requires { Sought 64 10 16 r a }
    ensures { result ≡ a + value 10 r }
{
    let j = rows(8, 8, 0, 10, 16, r, a);
    let t = middle(8, 4, j, 10, r);
    let j = half(8, 4, j, t, halves_low::lower_10(t), 10, r);
    let t = middle(8, 2, j, 10, r);
    let j = half(8, 2, j, t, halves_low::lower_10(t), 10, r);
    let t = middle(8, 1, j, 10, r);
    let j = half(8, 1, j, t, halves_low::lower_10(t), 10, r);
    let t = 8 + j;
    let c = halves_low::lower_10(t);
    let x = with(8, j, t, c, 10, 16, r, a);
    below_16_9(r - c, x)
}

pub fn below_16_11(r: u64, a: u64) -> u64
    requires { Sought 64 11 16 r a }
    ensures { result ≡ a + value 11 r }
{
    let j = rows(8, 8, 0, 11, 16, r, a);
    let t = middle(8, 4, j, 11, r);
    let j = half(8, 4, j, t, halves_low::lower_11(t), 11, r);
    let t = middle(8, 2, j, 11, r);
    let j = half(8, 2, j, t, halves_low::lower_11(t), 11, r);
    let t = middle(8, 1, j, 11, r);
    let j = half(8, 1, j, t, halves_low::lower_11(t), 11, r);
    let t = 8 + j;
    let c = halves_low::lower_11(t);
    let x = with(8, j, t, c, 11, 16, r, a);
    below_16_10(r - c, x)
}

pub fn below_16_12(r: u64, a: u64) -> u64
    requires { Sought 64 12 16 r a }
    ensures { result ≡ a + value 12 r }
{
    let j = rows(8, 8, 0, 12, 16, r, a);
    let t = middle(8, 4, j, 12, r);
    let j = half(8, 4, j, t, halves_low::lower_12(t), 12, r);
    let t = middle(8, 2, j, 12, r);
    let j = half(8, 2, j, t, halves_low::lower_12(t), 12, r);
    let t = middle(8, 1, j, 12, r);
    let j = half(8, 1, j, t, halves_low::lower_12(t), 12, r);
    let t = 8 + j;
    let c = halves_low::lower_12(t);
    let x = with(8, j, t, c, 12, 16, r, a);
    below_16_11(r - c, x)
}

pub fn below_16_13(r: u64, a: u64) -> u64
    requires { Sought 64 13 16 r a }
    ensures { result ≡ a + value 13 r }
{
    let j = rows(12, 4, 0, 13, 16, r, a);
    let t = middle(12, 2, j, 13, r);
    let j = half(12, 2, j, t, halves_low::lower_13(t), 13, r);
    let t = middle(12, 1, j, 13, r);
    let j = half(12, 1, j, t, halves_low::lower_13(t), 13, r);
    let t = 12 + j;
    let c = halves_low::lower_13(t);
    let x = with(12, j, t, c, 13, 16, r, a);
    below_16_12(r - c, x)
}

pub fn below_16_14(r: u64, a: u64) -> u64
    requires { Sought 64 14 16 r a }
    ensures { result ≡ a + value 14 r }
{
    let j = rows(12, 4, 0, 14, 16, r, a);
    let t = middle(12, 2, j, 14, r);
    let j = half(12, 2, j, t, halves_low::lower_14(t), 14, r);
    let t = middle(12, 1, j, 14, r);
    let j = half(12, 1, j, t, halves_low::lower_14(t), 14, r);
    let t = 12 + j;
    let c = halves_low::lower_14(t);
    let x = with(12, j, t, c, 14, 16, r, a);
    below_16_13(r - c, x)
}

pub fn below_16_15(r: u64, a: u64) -> u64
    requires { Sought 64 15 16 r a }
    ensures { result ≡ a + value 15 r }
{
    let j = rows(14, 2, 0, 15, 16, r, a);
    let t = middle(14, 1, j, 15, r);
    let j = half(14, 1, j, t, halves_low::lower_15(t), 15, r);
    let t = 14 + j;
    let c = halves_low::lower_15(t);
    let x = with(14, j, t, c, 15, 16, r, a);
    below_16_14(r - c, x)
}

pub fn below_16_16(r: u64, a: u64) -> u64
    requires { Sought 64 16 16 r a }
    ensures { result ≡ a + value 16 r }
{
    let j = rows(15, 1, 0, 16, 16, r, a);
    let t = 15 + j;
    let c = halves_low::lower_16(t);
    let x = with(15, j, t, c, 16, 16, r, a);
    below_16_15(r - c, x)
}
