// Many indices in one call, for programs in C (docs/RULES.md, "The C boundary"). A refusal comes back with the position that it belongs to.
ghost use Rattle.std.specs.Prelude.{◌≡◌, length};
ghost use Rattle.answers.specs.Says.{places_of, after};
ghost use Rattle.boundary.specs.Boundary.{family_of, status, stored, itself};
ghost use Rattle.rank_all.specs.Rules.{rank_all_says, ranked_says};

use boundary::Status;
use rank_all::PlacedRefusal;

// How many ranks are written.
fn ranked(a: Result<u64, PlacedRefusal>, written: &mut u64) -> Status
    ensures back { result ≡ status (ranked_says a) }
    ensures holds { written.new ≡ stored itself (ranked_says a) written.old }
{
    match a {
        Ok(k) => {
            *written = k;
            boundary::answer()
        }
        Err(e) => {
            let number = answers::number(e.refusal);
            Status { number, at: e.at }
        }
    }
}

// The ranks of indices of one family over the alphabet n, given by their bits, and how many there are: 1 or 7 as the first that is not taken is refused, with its
// position; 8 with the first position that has no room. No rank is written unless all are.
#[unsafe(no_mangle)]
pub extern "C" fn gudrenoss_rank_all(
    allowed: bool,
    n: u64,
    bits: &[u64],
    ranks: &mut [u64],
    written: &mut u64,
) -> Status
    ensures back { result ≡ status (places_of (rank_all_says (family_of allowed) n bits.now (length ranks.old))) }
    ensures written { written.new ≡ stored itself (places_of (rank_all_says (family_of allowed) n bits.now (length ranks.old))) written.old }
    ensures holds { ranks.new ≡ after (rank_all_says (family_of allowed) n bits.now (length ranks.old)) ranks.old }
{
    ranked(
        rank_all::rank_all(boundary::family(allowed), n, bits, ranks),
        written,
    )
}
