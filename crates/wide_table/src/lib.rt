// Binomial coefficients up to row 128 from tables, as far as 64 digits hold them (document 02, §9). Rows up to 64 are those of the crate `count`.
#![tactic(auto)]

ghost use Rattle.std.specs.Prelude.{◌≡◌, ◌≤◌};
ghost use Rattle.wide_pascal.specs.Capped.{capped_entry};

// r, the entry at place j of row n, is the one at place k, since k is j.
fn in_column(r: u64, n: u64, j: u64, k: u64) -> u64
    requires { (r ≡ capped_entry n j) × (k ≡ j) }
    ensures { result ≡ capped_entry n k }
{
    r
}

// The entry at place k of row n, from its column.
fn by_column(n: u64, k: u64) -> u64
    requires { n ≤ 128 }
    ensures { result ≡ capped_entry n k }
{
    match k {
        1 => in_column(wide_columns_low::column_1(n), n, 1, k),
        2 => in_column(wide_columns_low::column_2(n), n, 2, k),
        3 => in_column(wide_columns_low::column_3(n), n, 3, k),
        4 => in_column(wide_columns_low::column_4(n), n, 4, k),
        5 => in_column(wide_columns_low::column_5(n), n, 5, k),
        6 => in_column(wide_columns_low::column_6(n), n, 6, k),
        7 => in_column(wide_columns_low::column_7(n), n, 7, k),
        8 => in_column(wide_columns_low::column_8(n), n, 8, k),
        9 => in_column(wide_columns_high::column_9(n), n, 9, k),
        10 => in_column(wide_columns_high::column_10(n), n, 10, k),
        11 => in_column(wide_columns_high::column_11(n), n, 11, k),
        12 => in_column(wide_columns_high::column_12(n), n, 12, k),
        13 => in_column(wide_columns_high::column_13(n), n, 13, k),
        14 => in_column(wide_columns_high::column_14(n), n, 14, k),
        15 => in_column(wide_columns_high::column_15(n), n, 15, k),
        16 => in_column(wide_columns_high::column_16(n), n, 16, k),
        17 => in_column(wide_columns_high::column_17(n), n, 17, k),
        18 => in_column(wide_columns_high::column_18(n), n, 18, k),
        19 => in_column(wide_columns_high::column_19(n), n, 19, k),
        20 => in_column(wide_columns_high::column_20(n), n, 20, k),
        21 => in_column(wide_columns_high::column_21(n), n, 21, k),
        22 => in_column(wide_columns_high::column_22(n), n, 22, k),
        23 => in_column(wide_columns_high::column_23(n), n, 23, k),
        24 => in_column(wide_columns_high::column_24(n), n, 24, k),
        25 => in_column(wide_columns_high::column_25(n), n, 25, k),
        26 => in_column(wide_columns_high::column_26(n), n, 26, k),
        27 => in_column(wide_columns_high::column_27(n), n, 27, k),
        28 => in_column(wide_columns_high::column_28(n), n, 28, k),
        29 => in_column(wide_columns_high::column_29(n), n, 29, k),
        30 => in_column(wide_columns_high::column_30(n), n, 30, k),
        31 => in_column(wide_columns_high::column_31(n), n, 31, k),
        32 => in_column(wide_columns_high::column_32(n), n, 32, k),
        33 => in_column(wide_columns_high::column_33(n), n, 33, k),
        _ => wide_pascal::along(n, k),
    }
}

// The entry at place k of row n, or 2^64 - 1 where it is 2^64 or more. The caller keeps the row to 128: in a loop over symbols a test would cost speed.
pub fn at(n: u64, k: u64) -> u64
    requires { n ≤ 128 }
    ensures { result ≡ capped_entry n k }
{
    if n < k {
        return 0;
    }
    if n <= 64 {
        return count::at(n, k);
    }
    by_column(n, wide_pascal::nearer(n, k))
}
