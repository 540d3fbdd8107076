// Pascal's triangle (DLMF 26.3) as one list of 1024 numbers in 16 parts, so that a coefficient is found at one place (specs/Cells): what the last arm of each
// part calls, where none of its places is.
#![tactic(auto)]

ghost use Rattle.std.specs.Prelude.{◌≡◌, ◌<◌};
ghost use Rattle.triangle.specs.Cells.{cell_of};

// The cell at place i of part h, row by row; 0 where there is no such part. It is never reached at run time: each place has an arm of its own.
pub fn cell(h: u64, i: u64) -> u64
    requires { i < 64 }
    ensures { result ≡ cell_of h i }
{
    if 15 < h {
        return 0;
    }
    let mut rest = h * 64 + i;
    for n in 2..64 {
        if rest < n / 2 {
            return pascal::recurrence(n, rest + 1);
        }
        rest -= n / 2;
    }
    pascal::recurrence(64, rest + 1)
}
