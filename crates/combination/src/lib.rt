// Sets of symbols (document 01, "Terms and their order"): a set is a bare 64-bit number, read as the bits of a Forbidden index.
// The union of sets, deletion, complement, rank and unranking are the calls on such an index.
#![tactic(auto)]

ghost use Rattle.std.specs.Prelude.{◌≡◌};
ghost use Rattle.words.specs.Bits.{set_bits};
ghost use Rattle.answers.specs.Says.{answer_says};
ghost use Rattle.words.specs.Members.{stands_in};
ghost use Rattle.combination.specs.Rules.{insert_says, position_says, select_says};

use answers::Refusal;

// The set with the symbol s: 7 if s is above 63; 5 if the set has it.
pub fn insert(set: u64, s: u64) -> Result<u64, Refusal>
    ensures { answer_says result ≡ insert_says set s }
{
    if 63 < s {
        return Err(Refusal::Outside);
    }
    if bits::contains(set, s) {
        return Err(Refusal::Repeated);
    }
    let digit: u64 = 1 << s;
    Ok(set | digit)
}

// Has the set the symbol s? No from 64 up.
pub fn contains(set: u64, s: u64) -> bool
    ensures { result ≡ stands_in s (set_bits set) }
{
    bits::contains(set, s)
}

// The position of the symbol s in the set, which is how many of its symbols are smaller: 7 if the set has no s.
pub fn position(set: u64, s: u64) -> Result<u64, Refusal>
    ensures { answer_says result ≡ position_says set s }
{
    if !bits::contains(set, s) {
        return Err(Refusal::Outside);
    }
    Ok(bits::below(set, s))
}

// The symbols of the set at the given positions, which are a set too: 7 if a position is not below the number of symbols.
pub fn select(set: u64, positions: u64) -> Result<u64, Refusal>
    ensures { answer_says result ≡ select_says set positions }
{
    if bits::reaches(positions, bits::count_ones(set)) {
        return Err(Refusal::Outside);
    }
    let mut left = set;
    let mut wanted = positions;
    let mut chosen: u64 = 0;
    // Two sets are run down together and no index is counted: a `for` over positions would need a second look at each set.
    while wanted != 0 {
        let rest = bits::without_lowest(left);
        if wanted % 2 == 1 {
            chosen += left - rest;
        }
        left = rest;
        wanted /= 2;
    }
    Ok(chosen)
}
