// Sets, for programs in C (docs/RULES.md, section 7). A set is a bare 64-bit number. Each call answers and is refused as the call of the crate combination that it
// names.
ghost use Rattle.std.specs.Prelude.{◌≡◌};
ghost use Rattle.words.specs.Bits.{set_bits};
ghost use Rattle.words.specs.Members.{stands_in};
ghost use Rattle.combination.specs.Rules.{insert_says, position_says, select_says};
ghost use Rattle.boundary.specs.Boundary.{answered, status, stored, itself};

use boundary::Status;

// The set with the symbol s: 7 if s is above 63; 5 if the set has it.
#[unsafe(no_mangle)]
pub extern "C" fn gudrenoss_set_insert(set: u64, s: u64, with: &mut u64) -> Status
    ensures back { result ≡ status (insert_says set s) }
    ensures holds { with.new ≡ stored itself (insert_says set s) with.old }
{
    boundary::number(combination::insert(set, s), with)
}

// Whether the set has the symbol s; no from 64 up. Never refused.
#[unsafe(no_mangle)]
pub extern "C" fn gudrenoss_set_contains(set: u64, s: u64, contains: &mut bool) -> Status
    ensures back { result ≡ answered }
    ensures holds { contains.new ≡ stands_in s (set_bits set) }
{
    *contains = combination::contains(set, s);
    boundary::answer()
}

// The position of the symbol s in the set: 7 if the set has no s.
#[unsafe(no_mangle)]
pub extern "C" fn gudrenoss_set_position(set: u64, s: u64, position: &mut u64) -> Status
    ensures back { result ≡ status (position_says set s) }
    ensures holds { position.new ≡ stored itself (position_says set s) position.old }
{
    boundary::number(combination::position(set, s), position)
}

// The symbols of the set at the given positions, which are a set too: 7 if a position is not below the number of symbols.
#[unsafe(no_mangle)]
pub extern "C" fn gudrenoss_set_select(set: u64, positions: u64, selected: &mut u64) -> Status
    ensures back { result ≡ status (select_says set positions) }
    ensures holds { selected.new ≡ stored itself (select_says set positions) selected.old }
{
    boundary::number(combination::select(set, positions), selected)
}
