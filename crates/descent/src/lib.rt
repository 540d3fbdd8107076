// The sets of 2 to 32 numbers by their rank, each number found by halving its column (document 01, "Terms and their order"). Made by tools/halves.py.
// The rows are cut at 48, 32, 16 and 8. The link `below_s_k` has k numbers of rank r to find, all below the cut s, and a holds those that are found. One
// comparison says whether they are below the next cut too, and then that cut's link takes over, for good. Otherwise the highest is one of the rows between
// the two cuts, at most 16; each comparison halves these, with no branch, and what is left goes to the link for one number fewer.
// Here are the links below 64; those of the lower cuts are in `descent_48`, `descent_32` and `descent_16`.
#![tactic(auto)]

ghost use Rattle.std.specs.Prelude.{◌≡◌, ◌+◌, ◌<◌, ◌≤◌};
ghost use Rattle.pascal.specs.Row.{entry};
ghost use Rattle.halving.specs.Search.{value, Sought};

use halving::{begun, below, empty, ended, half, last, middle, rows, with};

fn below_64_2(r: u64, a: u64) -> u64
    requires { Sought 64 2 64 r a }
    ensures { result ≡ a + value 2 r }
{
    if r < 1128 {
        return descent_48::below_48_2(r, below(48, 1128, 2, 64, r, a));
    }
    let j = rows(48, 16, 1128, 2, 64, r, a);
    let t = middle(48, 8, j, 2, r);
    let j = half(48, 8, j, t, halves_low::upper_2(t), 2, r);
    let t = middle(48, 4, j, 2, r);
    let j = half(48, 4, j, t, halves_low::upper_2(t), 2, r);
    let t = middle(48, 2, j, 2, r);
    let j = half(48, 2, j, t, halves_low::upper_2(t), 2, r);
    let t = middle(48, 1, j, 2, r);
    let j = half(48, 1, j, t, halves_low::upper_2(t), 2, r);
    let t = 48 + j;
    let c = halves_low::upper_2(t);
    let x = with(48, j, t, c, 2, 64, r, a);
    last(64, r - c, x)
}

fn below_64_3(r: u64, a: u64) -> u64
    requires { Sought 64 3 64 r a }
    ensures { result ≡ a + value 3 r }
{
    if r < 17296 {
        return descent_48::below_48_3(r, below(48, 17296, 3, 64, r, a));
    }
    let j = rows(48, 16, 17296, 3, 64, r, a);
    let t = middle(48, 8, j, 3, r);
    let j = half(48, 8, j, t, halves_low::upper_3(t), 3, r);
    let t = middle(48, 4, j, 3, r);
    let j = half(48, 4, j, t, halves_low::upper_3(t), 3, r);
    let t = middle(48, 2, j, 3, r);
    let j = half(48, 2, j, t, halves_low::upper_3(t), 3, r);
    let t = middle(48, 1, j, 3, r);
    let j = half(48, 1, j, t, halves_low::upper_3(t), 3, r);
    let t = 48 + j;
    let c = halves_low::upper_3(t);
    let x = with(48, j, t, c, 3, 64, r, a);
    below_64_2(r - c, x)
}

fn below_64_4(r: u64, a: u64) -> u64
    requires { Sought 64 4 64 r a }
    ensures { result ≡ a + value 4 r }
{
    if r < 194580 {
        return descent_48::below_48_4(r, below(48, 194580, 4, 64, r, a));
    }
    let j = rows(48, 16, 194580, 4, 64, r, a);
    let t = middle(48, 8, j, 4, r);
    let j = half(48, 8, j, t, halves_low::upper_4(t), 4, r);
    let t = middle(48, 4, j, 4, r);
    let j = half(48, 4, j, t, halves_low::upper_4(t), 4, r);
    let t = middle(48, 2, j, 4, r);
    let j = half(48, 2, j, t, halves_low::upper_4(t), 4, r);
    let t = middle(48, 1, j, 4, r);
    let j = half(48, 1, j, t, halves_low::upper_4(t), 4, r);
    let t = 48 + j;
    let c = halves_low::upper_4(t);
    let x = with(48, j, t, c, 4, 64, r, a);
    below_64_3(r - c, x)
}

fn below_64_5(r: u64, a: u64) -> u64
    requires { Sought 64 5 64 r a }
    ensures { result ≡ a + value 5 r }
{
    if r < 1712304 {
        return descent_48::below_48_5(r, below(48, 1712304, 5, 64, r, a));
    }
    let j = rows(48, 16, 1712304, 5, 64, r, a);
    let t = middle(48, 8, j, 5, r);
    let j = half(48, 8, j, t, halves_low::upper_5(t), 5, r);
    let t = middle(48, 4, j, 5, r);
    let j = half(48, 4, j, t, halves_low::upper_5(t), 5, r);
    let t = middle(48, 2, j, 5, r);
    let j = half(48, 2, j, t, halves_low::upper_5(t), 5, r);
    let t = middle(48, 1, j, 5, r);
    let j = half(48, 1, j, t, halves_low::upper_5(t), 5, r);
    let t = 48 + j;
    let c = halves_low::upper_5(t);
    let x = with(48, j, t, c, 5, 64, r, a);
    below_64_4(r - c, x)
}

fn below_64_6(r: u64, a: u64) -> u64
    requires { Sought 64 6 64 r a }
    ensures { result ≡ a + value 6 r }
{
    if r < 12271512 {
        return descent_48::below_48_6(r, below(48, 12271512, 6, 64, r, a));
    }
    let j = rows(48, 16, 12271512, 6, 64, r, a);
    let t = middle(48, 8, j, 6, r);
    let j = half(48, 8, j, t, halves_low::upper_6(t), 6, r);
    let t = middle(48, 4, j, 6, r);
    let j = half(48, 4, j, t, halves_low::upper_6(t), 6, r);
    let t = middle(48, 2, j, 6, r);
    let j = half(48, 2, j, t, halves_low::upper_6(t), 6, r);
    let t = middle(48, 1, j, 6, r);
    let j = half(48, 1, j, t, halves_low::upper_6(t), 6, r);
    let t = 48 + j;
    let c = halves_low::upper_6(t);
    let x = with(48, j, t, c, 6, 64, r, a);
    below_64_5(r - c, x)
}

fn below_64_7(r: u64, a: u64) -> u64
    requires { Sought 64 7 64 r a }
    ensures { result ≡ a + value 7 r }
{
    if r < 73629072 {
        return descent_48::below_48_7(r, below(48, 73629072, 7, 64, r, a));
    }
    let j = rows(48, 16, 73629072, 7, 64, r, a);
    let t = middle(48, 8, j, 7, r);
    let j = half(48, 8, j, t, halves_low::upper_7(t), 7, r);
    let t = middle(48, 4, j, 7, r);
    let j = half(48, 4, j, t, halves_low::upper_7(t), 7, r);
    let t = middle(48, 2, j, 7, r);
    let j = half(48, 2, j, t, halves_low::upper_7(t), 7, r);
    let t = middle(48, 1, j, 7, r);
    let j = half(48, 1, j, t, halves_low::upper_7(t), 7, r);
    let t = 48 + j;
    let c = halves_low::upper_7(t);
    let x = with(48, j, t, c, 7, 64, r, a);
    below_64_6(r - c, x)
}

fn below_64_8(r: u64, a: u64) -> u64
    requires { Sought 64 8 64 r a }
    ensures { result ≡ a + value 8 r }
{
    if r < 377348994 {
        return descent_48::below_48_8(r, below(48, 377348994, 8, 64, r, a));
    }
    let j = rows(48, 16, 377348994, 8, 64, r, a);
    let t = middle(48, 8, j, 8, r);
    let j = half(48, 8, j, t, halves_low::upper_8(t), 8, r);
    let t = middle(48, 4, j, 8, r);
    let j = half(48, 4, j, t, halves_low::upper_8(t), 8, r);
    let t = middle(48, 2, j, 8, r);
    let j = half(48, 2, j, t, halves_low::upper_8(t), 8, r);
    let t = middle(48, 1, j, 8, r);
    let j = half(48, 1, j, t, halves_low::upper_8(t), 8, r);
    let t = 48 + j;
    let c = halves_low::upper_8(t);
    let x = with(48, j, t, c, 8, 64, r, a);
    below_64_7(r - c, x)
}

fn below_64_9(r: u64, a: u64) -> u64
    requires { Sought 64 9 64 r a }
    ensures { result ≡ a + value 9 r }
{
    if r < 1677106640 {
        return descent_48::below_48_9(r, below(48, 1677106640, 9, 64, r, a));
    }
    let j = rows(48, 16, 1677106640, 9, 64, r, a);
    let t = middle(48, 8, j, 9, r);
    let j = half(48, 8, j, t, halves_low::upper_9(t), 9, r);
    let t = middle(48, 4, j, 9, r);
    let j = half(48, 4, j, t, halves_low::upper_9(t), 9, r);
    let t = middle(48, 2, j, 9, r);
    let j = half(48, 2, j, t, halves_low::upper_9(t), 9, r);
    let t = middle(48, 1, j, 9, r);
    let j = half(48, 1, j, t, halves_low::upper_9(t), 9, r);
    let t = 48 + j;
    let c = halves_low::upper_9(t);
    let x = with(48, j, t, c, 9, 64, r, a);
    below_64_8(r - c, x)
}

fn below_64_10(r: u64, a: u64) -> u64
    requires { Sought 64 10 64 r a }
    ensures { result ≡ a + value 10 r }
{
    if r < 6540715896 {
        return descent_48::below_48_10(r, below(48, 6540715896, 10, 64, r, a));
    }
    let j = rows(48, 16, 6540715896, 10, 64, r, a);
    let t = middle(48, 8, j, 10, r);
    let j = half(48, 8, j, t, halves_low::upper_10(t), 10, r);
    let t = middle(48, 4, j, 10, r);
    let j = half(48, 4, j, t, halves_low::upper_10(t), 10, r);
    let t = middle(48, 2, j, 10, r);
    let j = half(48, 2, j, t, halves_low::upper_10(t), 10, r);
    let t = middle(48, 1, j, 10, r);
    let j = half(48, 1, j, t, halves_low::upper_10(t), 10, r);
    let t = 48 + j;
    let c = halves_low::upper_10(t);
    let x = with(48, j, t, c, 10, 64, r, a);
    below_64_9(r - c, x)
}

fn below_64_11(r: u64, a: u64) -> u64
    requires { Sought 64 11 64 r a }
    ensures { result ≡ a + value 11 r }
{
    if r < 22595200368 {
        return descent_48::below_48_11(r, below(48, 22595200368, 11, 64, r, a));
    }
    let j = rows(48, 16, 22595200368, 11, 64, r, a);
    let t = middle(48, 8, j, 11, r);
    let j = half(48, 8, j, t, halves_low::upper_11(t), 11, r);
    let t = middle(48, 4, j, 11, r);
    let j = half(48, 4, j, t, halves_low::upper_11(t), 11, r);
    let t = middle(48, 2, j, 11, r);
    let j = half(48, 2, j, t, halves_low::upper_11(t), 11, r);
    let t = middle(48, 1, j, 11, r);
    let j = half(48, 1, j, t, halves_low::upper_11(t), 11, r);
    let t = 48 + j;
    let c = halves_low::upper_11(t);
    let x = with(48, j, t, c, 11, 64, r, a);
    below_64_10(r - c, x)
}

fn below_64_12(r: u64, a: u64) -> u64
    requires { Sought 64 12 64 r a }
    ensures { result ≡ a + value 12 r }
{
    if r < 69668534468 {
        return descent_48::below_48_12(r, below(48, 69668534468, 12, 64, r, a));
    }
    let j = rows(48, 16, 69668534468, 12, 64, r, a);
    let t = middle(48, 8, j, 12, r);
    let j = half(48, 8, j, t, halves_low::upper_12(t), 12, r);
    let t = middle(48, 4, j, 12, r);
    let j = half(48, 4, j, t, halves_low::upper_12(t), 12, r);
    let t = middle(48, 2, j, 12, r);
    let j = half(48, 2, j, t, halves_low::upper_12(t), 12, r);
    let t = middle(48, 1, j, 12, r);
    let j = half(48, 1, j, t, halves_low::upper_12(t), 12, r);
    let t = 48 + j;
    let c = halves_low::upper_12(t);
    let x = with(48, j, t, c, 12, 64, r, a);
    below_64_11(r - c, x)
}

fn below_64_13(r: u64, a: u64) -> u64
    requires { Sought 64 13 64 r a }
    ensures { result ≡ a + value 13 r }
{
    if r < 192928249296 {
        return descent_48::below_48_13(r, below(48, 192928249296, 13, 64, r, a));
    }
    let j = rows(48, 16, 192928249296, 13, 64, r, a);
    let t = middle(48, 8, j, 13, r);
    let j = half(48, 8, j, t, halves_low::upper_13(t), 13, r);
    let t = middle(48, 4, j, 13, r);
    let j = half(48, 4, j, t, halves_low::upper_13(t), 13, r);
    let t = middle(48, 2, j, 13, r);
    let j = half(48, 2, j, t, halves_low::upper_13(t), 13, r);
    let t = middle(48, 1, j, 13, r);
    let j = half(48, 1, j, t, halves_low::upper_13(t), 13, r);
    let t = 48 + j;
    let c = halves_low::upper_13(t);
    let x = with(48, j, t, c, 13, 64, r, a);
    below_64_12(r - c, x)
}

fn below_64_14(r: u64, a: u64) -> u64
    requires { Sought 64 14 64 r a }
    ensures { result ≡ a + value 14 r }
{
    if r < 482320623240 {
        return descent_48::below_48_14(r, below(48, 482320623240, 14, 64, r, a));
    }
    let j = rows(48, 16, 482320623240, 14, 64, r, a);
    let t = middle(48, 8, j, 14, r);
    let j = half(48, 8, j, t, halves_low::upper_14(t), 14, r);
    let t = middle(48, 4, j, 14, r);
    let j = half(48, 4, j, t, halves_low::upper_14(t), 14, r);
    let t = middle(48, 2, j, 14, r);
    let j = half(48, 2, j, t, halves_low::upper_14(t), 14, r);
    let t = middle(48, 1, j, 14, r);
    let j = half(48, 1, j, t, halves_low::upper_14(t), 14, r);
    let t = 48 + j;
    let c = halves_low::upper_14(t);
    let x = with(48, j, t, c, 14, 64, r, a);
    below_64_13(r - c, x)
}

fn below_64_15(r: u64, a: u64) -> u64
    requires { Sought 64 15 64 r a }
    ensures { result ≡ a + value 15 r }
{
    if r < 1093260079344 {
        return descent_48::below_48_15(r, below(48, 1093260079344, 15, 64, r, a));
    }
    let j = rows(48, 16, 1093260079344, 15, 64, r, a);
    let t = middle(48, 8, j, 15, r);
    let j = half(48, 8, j, t, halves_low::upper_15(t), 15, r);
    let t = middle(48, 4, j, 15, r);
    let j = half(48, 4, j, t, halves_low::upper_15(t), 15, r);
    let t = middle(48, 2, j, 15, r);
    let j = half(48, 2, j, t, halves_low::upper_15(t), 15, r);
    let t = middle(48, 1, j, 15, r);
    let j = half(48, 1, j, t, halves_low::upper_15(t), 15, r);
    let t = 48 + j;
    let c = halves_low::upper_15(t);
    let x = with(48, j, t, c, 15, 64, r, a);
    below_64_14(r - c, x)
}

fn below_64_16(r: u64, a: u64) -> u64
    requires { Sought 64 16 64 r a }
    ensures { result ≡ a + value 16 r }
{
    if r < 2254848913647 {
        return descent_48::below_48_16(r, below(48, 2254848913647, 16, 64, r, a));
    }
    let j = rows(48, 16, 2254848913647, 16, 64, r, a);
    let t = middle(48, 8, j, 16, r);
    let j = half(48, 8, j, t, halves_low::upper_16(t), 16, r);
    let t = middle(48, 4, j, 16, r);
    let j = half(48, 4, j, t, halves_low::upper_16(t), 16, r);
    let t = middle(48, 2, j, 16, r);
    let j = half(48, 2, j, t, halves_low::upper_16(t), 16, r);
    let t = middle(48, 1, j, 16, r);
    let j = half(48, 1, j, t, halves_low::upper_16(t), 16, r);
    let t = 48 + j;
    let c = halves_low::upper_16(t);
    let x = with(48, j, t, c, 16, 64, r, a);
    below_64_15(r - c, x)
}

fn below_64_17(r: u64, a: u64) -> u64
    requires { Sought 64 17 64 r a }
    ensures { result ≡ a + value 17 r }
{
    if r < 4244421484512 {
        return descent_48::below_48_17(r, below(48, 4244421484512, 17, 64, r, a));
    }
    let j = rows(48, 16, 4244421484512, 17, 64, r, a);
    let t = middle(48, 8, j, 17, r);
    let j = half(48, 8, j, t, halves_high::upper_17(t), 17, r);
    let t = middle(48, 4, j, 17, r);
    let j = half(48, 4, j, t, halves_high::upper_17(t), 17, r);
    let t = middle(48, 2, j, 17, r);
    let j = half(48, 2, j, t, halves_high::upper_17(t), 17, r);
    let t = middle(48, 1, j, 17, r);
    let j = half(48, 1, j, t, halves_high::upper_17(t), 17, r);
    let t = 48 + j;
    let c = halves_high::upper_17(t);
    let x = with(48, j, t, c, 17, 64, r, a);
    below_64_16(r - c, x)
}

fn below_64_18(r: u64, a: u64) -> u64
    requires { Sought 64 18 64 r a }
    ensures { result ≡ a + value 18 r }
{
    if r < 7309837001104 {
        return descent_48::below_48_18(r, below(48, 7309837001104, 18, 64, r, a));
    }
    let j = rows(48, 16, 7309837001104, 18, 64, r, a);
    let t = middle(48, 8, j, 18, r);
    let j = half(48, 8, j, t, halves_high::upper_18(t), 18, r);
    let t = middle(48, 4, j, 18, r);
    let j = half(48, 4, j, t, halves_high::upper_18(t), 18, r);
    let t = middle(48, 2, j, 18, r);
    let j = half(48, 2, j, t, halves_high::upper_18(t), 18, r);
    let t = middle(48, 1, j, 18, r);
    let j = half(48, 1, j, t, halves_high::upper_18(t), 18, r);
    let t = 48 + j;
    let c = halves_high::upper_18(t);
    let x = with(48, j, t, c, 18, 64, r, a);
    below_64_17(r - c, x)
}

fn below_64_19(r: u64, a: u64) -> u64
    requires { Sought 64 19 64 r a }
    ensures { result ≡ a + value 19 r }
{
    if r < 11541847896480 {
        return descent_48::below_48_19(r, below(48, 11541847896480, 19, 64, r, a));
    }
    let j = rows(48, 16, 11541847896480, 19, 64, r, a);
    let t = middle(48, 8, j, 19, r);
    let j = half(48, 8, j, t, halves_high::upper_19(t), 19, r);
    let t = middle(48, 4, j, 19, r);
    let j = half(48, 4, j, t, halves_high::upper_19(t), 19, r);
    let t = middle(48, 2, j, 19, r);
    let j = half(48, 2, j, t, halves_high::upper_19(t), 19, r);
    let t = middle(48, 1, j, 19, r);
    let j = half(48, 1, j, t, halves_high::upper_19(t), 19, r);
    let t = 48 + j;
    let c = halves_high::upper_19(t);
    let x = with(48, j, t, c, 19, 64, r, a);
    below_64_18(r - c, x)
}

fn below_64_20(r: u64, a: u64) -> u64
    requires { Sought 64 20 64 r a }
    ensures { result ≡ a + value 20 r }
{
    if r < 16735679449896 {
        return descent_48::below_48_20(r, below(48, 16735679449896, 20, 64, r, a));
    }
    let j = rows(48, 16, 16735679449896, 20, 64, r, a);
    let t = middle(48, 8, j, 20, r);
    let j = half(48, 8, j, t, halves_high::upper_20(t), 20, r);
    let t = middle(48, 4, j, 20, r);
    let j = half(48, 4, j, t, halves_high::upper_20(t), 20, r);
    let t = middle(48, 2, j, 20, r);
    let j = half(48, 2, j, t, halves_high::upper_20(t), 20, r);
    let t = middle(48, 1, j, 20, r);
    let j = half(48, 1, j, t, halves_high::upper_20(t), 20, r);
    let t = 48 + j;
    let c = halves_high::upper_20(t);
    let x = with(48, j, t, c, 20, 64, r, a);
    below_64_19(r - c, x)
}

fn below_64_21(r: u64, a: u64) -> u64
    requires { Sought 64 21 64 r a }
    ensures { result ≡ a + value 21 r }
{
    if r < 22314239266528 {
        return descent_48::below_48_21(r, below(48, 22314239266528, 21, 64, r, a));
    }
    let j = rows(48, 16, 22314239266528, 21, 64, r, a);
    let t = middle(48, 8, j, 21, r);
    let j = half(48, 8, j, t, halves_high::upper_21(t), 21, r);
    let t = middle(48, 4, j, 21, r);
    let j = half(48, 4, j, t, halves_high::upper_21(t), 21, r);
    let t = middle(48, 2, j, 21, r);
    let j = half(48, 2, j, t, halves_high::upper_21(t), 21, r);
    let t = middle(48, 1, j, 21, r);
    let j = half(48, 1, j, t, halves_high::upper_21(t), 21, r);
    let t = 48 + j;
    let c = halves_high::upper_21(t);
    let x = with(48, j, t, c, 21, 64, r, a);
    below_64_20(r - c, x)
}

fn below_64_22(r: u64, a: u64) -> u64
    requires { Sought 64 22 64 r a }
    ensures { result ≡ a + value 22 r }
{
    if r < 27385657281648 {
        return descent_48::below_48_22(r, below(48, 27385657281648, 22, 64, r, a));
    }
    let j = rows(48, 16, 27385657281648, 22, 64, r, a);
    let t = middle(48, 8, j, 22, r);
    let j = half(48, 8, j, t, halves_high::upper_22(t), 22, r);
    let t = middle(48, 4, j, 22, r);
    let j = half(48, 4, j, t, halves_high::upper_22(t), 22, r);
    let t = middle(48, 2, j, 22, r);
    let j = half(48, 2, j, t, halves_high::upper_22(t), 22, r);
    let t = middle(48, 1, j, 22, r);
    let j = half(48, 1, j, t, halves_high::upper_22(t), 22, r);
    let t = 48 + j;
    let c = halves_high::upper_22(t);
    let x = with(48, j, t, c, 22, 64, r, a);
    below_64_21(r - c, x)
}

fn below_64_23(r: u64, a: u64) -> u64
    requires { Sought 64 23 64 r a }
    ensures { result ≡ a + value 23 r }
{
    if r < 30957699535776 {
        return descent_48::below_48_23(r, below(48, 30957699535776, 23, 64, r, a));
    }
    let j = rows(48, 16, 30957699535776, 23, 64, r, a);
    let t = middle(48, 8, j, 23, r);
    let j = half(48, 8, j, t, halves_high::upper_23(t), 23, r);
    let t = middle(48, 4, j, 23, r);
    let j = half(48, 4, j, t, halves_high::upper_23(t), 23, r);
    let t = middle(48, 2, j, 23, r);
    let j = half(48, 2, j, t, halves_high::upper_23(t), 23, r);
    let t = middle(48, 1, j, 23, r);
    let j = half(48, 1, j, t, halves_high::upper_23(t), 23, r);
    let t = 48 + j;
    let c = halves_high::upper_23(t);
    let x = with(48, j, t, c, 23, 64, r, a);
    below_64_22(r - c, x)
}

fn below_64_24(r: u64, a: u64) -> u64
    requires { Sought 64 24 64 r a }
    ensures { result ≡ a + value 24 r }
{
    if r < 32247603683100 {
        return descent_48::below_48_24(r, below(48, 32247603683100, 24, 64, r, a));
    }
    let j = rows(48, 16, 32247603683100, 24, 64, r, a);
    let t = middle(48, 8, j, 24, r);
    let j = half(48, 8, j, t, halves_high::upper_24(t), 24, r);
    let t = middle(48, 4, j, 24, r);
    let j = half(48, 4, j, t, halves_high::upper_24(t), 24, r);
    let t = middle(48, 2, j, 24, r);
    let j = half(48, 2, j, t, halves_high::upper_24(t), 24, r);
    let t = middle(48, 1, j, 24, r);
    let j = half(48, 1, j, t, halves_high::upper_24(t), 24, r);
    let t = 48 + j;
    let c = halves_high::upper_24(t);
    let x = with(48, j, t, c, 24, 64, r, a);
    below_64_23(r - c, x)
}

fn below_64_25(r: u64, a: u64) -> u64
    requires { Sought 64 25 64 r a }
    ensures { result ≡ a + value 25 r }
{
    if r < 30957699535776 {
        return descent_48::below_48_25(r, below(48, 30957699535776, 25, 64, r, a));
    }
    let j = rows(48, 16, 30957699535776, 25, 64, r, a);
    let t = middle(48, 8, j, 25, r);
    let j = half(48, 8, j, t, halves_high::upper_25(t), 25, r);
    let t = middle(48, 4, j, 25, r);
    let j = half(48, 4, j, t, halves_high::upper_25(t), 25, r);
    let t = middle(48, 2, j, 25, r);
    let j = half(48, 2, j, t, halves_high::upper_25(t), 25, r);
    let t = middle(48, 1, j, 25, r);
    let j = half(48, 1, j, t, halves_high::upper_25(t), 25, r);
    let t = 48 + j;
    let c = halves_high::upper_25(t);
    let x = with(48, j, t, c, 25, 64, r, a);
    below_64_24(r - c, x)
}

fn below_64_26(r: u64, a: u64) -> u64
    requires { Sought 64 26 64 r a }
    ensures { result ≡ a + value 26 r }
{
    if r < 27385657281648 {
        return descent_48::below_48_26(r, below(48, 27385657281648, 26, 64, r, a));
    }
    let j = rows(48, 16, 27385657281648, 26, 64, r, a);
    let t = middle(48, 8, j, 26, r);
    let j = half(48, 8, j, t, halves_high::upper_26(t), 26, r);
    let t = middle(48, 4, j, 26, r);
    let j = half(48, 4, j, t, halves_high::upper_26(t), 26, r);
    let t = middle(48, 2, j, 26, r);
    let j = half(48, 2, j, t, halves_high::upper_26(t), 26, r);
    let t = middle(48, 1, j, 26, r);
    let j = half(48, 1, j, t, halves_high::upper_26(t), 26, r);
    let t = 48 + j;
    let c = halves_high::upper_26(t);
    let x = with(48, j, t, c, 26, 64, r, a);
    below_64_25(r - c, x)
}

fn below_64_27(r: u64, a: u64) -> u64
    requires { Sought 64 27 64 r a }
    ensures { result ≡ a + value 27 r }
{
    if r < 22314239266528 {
        return descent_48::below_48_27(r, below(48, 22314239266528, 27, 64, r, a));
    }
    let j = rows(48, 16, 22314239266528, 27, 64, r, a);
    let t = middle(48, 8, j, 27, r);
    let j = half(48, 8, j, t, halves_high::upper_27(t), 27, r);
    let t = middle(48, 4, j, 27, r);
    let j = half(48, 4, j, t, halves_high::upper_27(t), 27, r);
    let t = middle(48, 2, j, 27, r);
    let j = half(48, 2, j, t, halves_high::upper_27(t), 27, r);
    let t = middle(48, 1, j, 27, r);
    let j = half(48, 1, j, t, halves_high::upper_27(t), 27, r);
    let t = 48 + j;
    let c = halves_high::upper_27(t);
    let x = with(48, j, t, c, 27, 64, r, a);
    below_64_26(r - c, x)
}

fn below_64_28(r: u64, a: u64) -> u64
    requires { Sought 64 28 64 r a }
    ensures { result ≡ a + value 28 r }
{
    if r < 16735679449896 {
        return descent_48::below_48_28(r, below(48, 16735679449896, 28, 64, r, a));
    }
    let j = rows(48, 16, 16735679449896, 28, 64, r, a);
    let t = middle(48, 8, j, 28, r);
    let j = half(48, 8, j, t, halves_high::upper_28(t), 28, r);
    let t = middle(48, 4, j, 28, r);
    let j = half(48, 4, j, t, halves_high::upper_28(t), 28, r);
    let t = middle(48, 2, j, 28, r);
    let j = half(48, 2, j, t, halves_high::upper_28(t), 28, r);
    let t = middle(48, 1, j, 28, r);
    let j = half(48, 1, j, t, halves_high::upper_28(t), 28, r);
    let t = 48 + j;
    let c = halves_high::upper_28(t);
    let x = with(48, j, t, c, 28, 64, r, a);
    below_64_27(r - c, x)
}

fn below_64_29(r: u64, a: u64) -> u64
    requires { Sought 64 29 64 r a }
    ensures { result ≡ a + value 29 r }
{
    if r < 11541847896480 {
        return descent_48::below_48_29(r, below(48, 11541847896480, 29, 64, r, a));
    }
    let j = rows(48, 16, 11541847896480, 29, 64, r, a);
    let t = middle(48, 8, j, 29, r);
    let j = half(48, 8, j, t, halves_high::upper_29(t), 29, r);
    let t = middle(48, 4, j, 29, r);
    let j = half(48, 4, j, t, halves_high::upper_29(t), 29, r);
    let t = middle(48, 2, j, 29, r);
    let j = half(48, 2, j, t, halves_high::upper_29(t), 29, r);
    let t = middle(48, 1, j, 29, r);
    let j = half(48, 1, j, t, halves_high::upper_29(t), 29, r);
    let t = 48 + j;
    let c = halves_high::upper_29(t);
    let x = with(48, j, t, c, 29, 64, r, a);
    below_64_28(r - c, x)
}

fn below_64_30(r: u64, a: u64) -> u64
    requires { Sought 64 30 64 r a }
    ensures { result ≡ a + value 30 r }
{
    if r < 7309837001104 {
        return descent_48::below_48_30(r, below(48, 7309837001104, 30, 64, r, a));
    }
    let j = rows(48, 16, 7309837001104, 30, 64, r, a);
    let t = middle(48, 8, j, 30, r);
    let j = half(48, 8, j, t, halves_high::upper_30(t), 30, r);
    let t = middle(48, 4, j, 30, r);
    let j = half(48, 4, j, t, halves_high::upper_30(t), 30, r);
    let t = middle(48, 2, j, 30, r);
    let j = half(48, 2, j, t, halves_high::upper_30(t), 30, r);
    let t = middle(48, 1, j, 30, r);
    let j = half(48, 1, j, t, halves_high::upper_30(t), 30, r);
    let t = 48 + j;
    let c = halves_high::upper_30(t);
    let x = with(48, j, t, c, 30, 64, r, a);
    below_64_29(r - c, x)
}

fn below_64_31(r: u64, a: u64) -> u64
    requires { Sought 64 31 64 r a }
    ensures { result ≡ a + value 31 r }
{
    if r < 4244421484512 {
        return descent_48::below_48_31(r, below(48, 4244421484512, 31, 64, r, a));
    }
    let j = rows(48, 16, 4244421484512, 31, 64, r, a);
    let t = middle(48, 8, j, 31, r);
    let j = half(48, 8, j, t, halves_high::upper_31(t), 31, r);
    let t = middle(48, 4, j, 31, r);
    let j = half(48, 4, j, t, halves_high::upper_31(t), 31, r);
    let t = middle(48, 2, j, 31, r);
    let j = half(48, 2, j, t, halves_high::upper_31(t), 31, r);
    let t = middle(48, 1, j, 31, r);
    let j = half(48, 1, j, t, halves_high::upper_31(t), 31, r);
    let t = 48 + j;
    let c = halves_high::upper_31(t);
    let x = with(48, j, t, c, 31, 64, r, a);
    below_64_30(r - c, x)
}

fn below_64_32(r: u64, a: u64) -> u64
    requires { Sought 64 32 64 r a }
    ensures { result ≡ a + value 32 r }
{
    if r < 2254848913647 {
        return descent_48::below_48_32(r, below(48, 2254848913647, 32, 64, r, a));
    }
    let j = rows(48, 16, 2254848913647, 32, 64, r, a);
    let t = middle(48, 8, j, 32, r);
    let j = half(48, 8, j, t, halves_high::upper_32(t), 32, r);
    let t = middle(48, 4, j, 32, r);
    let j = half(48, 4, j, t, halves_high::upper_32(t), 32, r);
    let t = middle(48, 2, j, 32, r);
    let j = half(48, 2, j, t, halves_high::upper_32(t), 32, r);
    let t = middle(48, 1, j, 32, r);
    let j = half(48, 1, j, t, halves_high::upper_32(t), 32, r);
    let t = 48 + j;
    let c = halves_high::upper_32(t);
    let x = with(48, j, t, c, 32, 64, r, a);
    below_64_31(r - c, x)
}

// The set of k numbers below s that has the rank r.
pub fn set(k: u64, s: u64, r: u64) -> u64
    requires { (k ≤ 32) × (s ≤ 64) × (r < entry s k) }
    ensures { result ≡ value k r }
{
    if k < 16 {
        if k < 8 {
            if k < 4 {
                if k < 2 {
                    if k < 1 {
                        return empty(k, r);
                    }
                    return ended(last(64, r, begun(64, 1, k, s, r)), 1, k, r);
                }
                if k < 3 {
                    if s <= 8 {
                        return ended(descent_16::below_8_2(r, begun(8, 2, k, s, r)), 2, k, r);
                    }
                    if s <= 16 {
                        return ended(descent_16::below_16_2(r, begun(16, 2, k, s, r)), 2, k, r);
                    }
                    return ended(below_64_2(r, begun(64, 2, k, s, r)), 2, k, r);
                }
                if s <= 8 {
                    return ended(descent_16::below_8_3(r, begun(8, 3, k, s, r)), 3, k, r);
                }
                if s <= 16 {
                    return ended(descent_16::below_16_3(r, begun(16, 3, k, s, r)), 3, k, r);
                }
                return ended(below_64_3(r, begun(64, 3, k, s, r)), 3, k, r);
            }
            if k < 6 {
                if k < 5 {
                    if s <= 8 {
                        return ended(descent_16::below_8_4(r, begun(8, 4, k, s, r)), 4, k, r);
                    }
                    if s <= 16 {
                        return ended(descent_16::below_16_4(r, begun(16, 4, k, s, r)), 4, k, r);
                    }
                    return ended(below_64_4(r, begun(64, 4, k, s, r)), 4, k, r);
                }
                if s <= 8 {
                    return ended(descent_16::below_8_5(r, begun(8, 5, k, s, r)), 5, k, r);
                }
                if s <= 16 {
                    return ended(descent_16::below_16_5(r, begun(16, 5, k, s, r)), 5, k, r);
                }
                return ended(below_64_5(r, begun(64, 5, k, s, r)), 5, k, r);
            }
            if k < 7 {
                if s <= 8 {
                    return ended(descent_16::below_8_6(r, begun(8, 6, k, s, r)), 6, k, r);
                }
                if s <= 16 {
                    return ended(descent_16::below_16_6(r, begun(16, 6, k, s, r)), 6, k, r);
                }
                return ended(below_64_6(r, begun(64, 6, k, s, r)), 6, k, r);
            }
            if s <= 8 {
                return ended(descent_16::below_8_7(r, begun(8, 7, k, s, r)), 7, k, r);
            }
            if s <= 16 {
                return ended(descent_16::below_16_7(r, begun(16, 7, k, s, r)), 7, k, r);
            }
            return ended(below_64_7(r, begun(64, 7, k, s, r)), 7, k, r);
        }
        if k < 12 {
            if k < 10 {
                if k < 9 {
                    if s <= 8 {
                        return ended(descent_16::below_8_8(r, begun(8, 8, k, s, r)), 8, k, r);
                    }
                    if s <= 16 {
                        return ended(descent_16::below_16_8(r, begun(16, 8, k, s, r)), 8, k, r);
                    }
                    return ended(below_64_8(r, begun(64, 8, k, s, r)), 8, k, r);
                }
                if s <= 16 {
                    return ended(descent_16::below_16_9(r, begun(16, 9, k, s, r)), 9, k, r);
                }
                return ended(below_64_9(r, begun(64, 9, k, s, r)), 9, k, r);
            }
            if k < 11 {
                if s <= 16 {
                    return ended(descent_16::below_16_10(r, begun(16, 10, k, s, r)), 10, k, r);
                }
                return ended(below_64_10(r, begun(64, 10, k, s, r)), 10, k, r);
            }
            if s <= 16 {
                return ended(descent_16::below_16_11(r, begun(16, 11, k, s, r)), 11, k, r);
            }
            return ended(below_64_11(r, begun(64, 11, k, s, r)), 11, k, r);
        }
        if k < 14 {
            if k < 13 {
                if s <= 16 {
                    return ended(descent_16::below_16_12(r, begun(16, 12, k, s, r)), 12, k, r);
                }
                return ended(below_64_12(r, begun(64, 12, k, s, r)), 12, k, r);
            }
            if s <= 16 {
                return ended(descent_16::below_16_13(r, begun(16, 13, k, s, r)), 13, k, r);
            }
            return ended(below_64_13(r, begun(64, 13, k, s, r)), 13, k, r);
        }
        if k < 15 {
            if s <= 16 {
                return ended(descent_16::below_16_14(r, begun(16, 14, k, s, r)), 14, k, r);
            }
            return ended(below_64_14(r, begun(64, 14, k, s, r)), 14, k, r);
        }
        if s <= 16 {
            return ended(descent_16::below_16_15(r, begun(16, 15, k, s, r)), 15, k, r);
        }
        return ended(below_64_15(r, begun(64, 15, k, s, r)), 15, k, r);
    }
    if k < 24 {
        if k < 20 {
            if k < 18 {
                if k < 17 {
                    if s <= 16 {
                        return ended(descent_16::below_16_16(r, begun(16, 16, k, s, r)), 16, k, r);
                    }
                    return ended(below_64_16(r, begun(64, 16, k, s, r)), 16, k, r);
                }
                return ended(below_64_17(r, begun(64, 17, k, s, r)), 17, k, r);
            }
            if k < 19 {
                return ended(below_64_18(r, begun(64, 18, k, s, r)), 18, k, r);
            }
            return ended(below_64_19(r, begun(64, 19, k, s, r)), 19, k, r);
        }
        if k < 22 {
            if k < 21 {
                return ended(below_64_20(r, begun(64, 20, k, s, r)), 20, k, r);
            }
            return ended(below_64_21(r, begun(64, 21, k, s, r)), 21, k, r);
        }
        if k < 23 {
            return ended(below_64_22(r, begun(64, 22, k, s, r)), 22, k, r);
        }
        return ended(below_64_23(r, begun(64, 23, k, s, r)), 23, k, r);
    }
    if k < 28 {
        if k < 26 {
            if k < 25 {
                return ended(below_64_24(r, begun(64, 24, k, s, r)), 24, k, r);
            }
            return ended(below_64_25(r, begun(64, 25, k, s, r)), 25, k, r);
        }
        if k < 27 {
            return ended(below_64_26(r, begun(64, 26, k, s, r)), 26, k, r);
        }
        return ended(below_64_27(r, begun(64, 27, k, s, r)), 27, k, r);
    }
    if k < 30 {
        if k < 29 {
            return ended(below_64_28(r, begun(64, 28, k, s, r)), 28, k, r);
        }
        return ended(below_64_29(r, begun(64, 29, k, s, r)), 29, k, r);
    }
    if k < 31 {
        return ended(below_64_30(r, begun(64, 30, k, s, r)), 30, k, r);
    }
    if k < 32 {
        return ended(below_64_31(r, begun(64, 31, k, s, r)), 31, k, r);
    }
    ended(below_64_32(r, begun(64, 32, k, s, r)), 32, k, r)
}
