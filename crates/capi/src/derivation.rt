// The derivatives of surfaces. A table of signed numbers is lent as a slice; the number written is how many entries the derivative has.
ghost use Rattle.std.specs.Prelude.{◌≡◌, length};
ghost use Rattle.boundary.specs.Boundary.{status, stored, itself};
ghost use Rattle.derivative.specs.Rules.{derivative_says, table_after, table_places};

use boundary::Status;

// The derivative by s of a table of degree k over n symbols: 1 if k or the shifted alphabet is above 64; 7 for degree 0; 7 if s is not below n; 8 if the table has not
// exactly its count; 8 if the output has fewer places than the derivative has entries; 9 if an entry is outside signed 64 bits.
#[unsafe(no_mangle)]
pub extern "C" fn gudrenoss_derivative(
    n: u64,
    k: u64,
    s: u64,
    table: &[i64],
    entries: &mut [i64],
    written: &mut u64,
) -> Status
    ensures back { result ≡ status (table_places (derivative_says n k s table.now (length entries.old))) }
    ensures written { written.new ≡ stored itself (table_places (derivative_says n k s table.now (length entries.old))) written.old }
    ensures holds { entries.new ≡ table_after (derivative_says n k s table.now (length entries.old)) entries.old }
{
    boundary::number(derivative::derivative(n, k, s, table, entries), written)
}
