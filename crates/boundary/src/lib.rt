// How answers cross to a program in C (docs/RULES.md, "The C boundary"): the refusal comes back, its number 0 for an answer, and each result goes to a place of the
// caller's, which is written only on an answer.
#![tactic(auto)]

ghost use Rattle.std.specs.Prelude.{◌≡◌};
ghost use Rattle.answers.specs.Says.{number_of, carried_by, answer_says};
ghost use Rattle.boundary.specs.Boundary.{family_of, answered, refused_with, status, stored, itself, index_at, minus};
ghost use Rattle.boundary.specs.Boundary.{alphabet_of_index, bits_of_index, minus_of_term, alphabet_of_term, bits_of_term};
ghost use Rattle.boundary.specs.Boundary.{minus_of_removed, symbol_of_removed, alphabet_of_removed, bits_of_removed};
ghost use Rattle.boundary.specs.Boundary.{walk_at, stands_somewhere, alphabet_there, bits_there, standing_of, over_of, at_of, remaining_of};
ghost use Rattle.boundary.specs.Boundary.{alphabet_given, bits_given, standing_after, over_after, at_after, remaining_after};

use answers::{Index, Refusal, Sign, SignedTerm};
use deletion::Removed;
use monotone_walk::{Moved, Walk};
use words::Family;

// What comes back from every call: the number of a refusal, 0 for an answer, and the place that the refusal carries, 0 if it carries none.
#[repr(C)]
#[derive(Clone, Copy)]
pub struct Status {
    pub number: u64,
    pub at: u64,
}

// What comes back of an answer.
pub fn answer() -> Status
    ensures { result ≡ answered }
{
    Status { number: 0, at: 0 }
}

// What comes back of a refusal.
pub fn refused(e: Refusal) -> Status
    ensures { result ≡ refused_with (number_of e) (carried_by e) }
{
    let number = answers::number(e);
    let at = answers::place(e);
    Status { number, at }
}

// The family that a truth value stands for.
pub fn family(allowed: bool) -> Family
    ensures { result ≡ family_of allowed }
{
    if allowed {
        return Family::Allowed;
    }
    Family::Forbidden
}

// An index from its three parts.
pub fn index(allowed: bool, n: u64, bits: u64) -> Index
    ensures { result ≡ index_at allowed n bits }
{
    let family = family(allowed);
    Index {
        family,
        alphabet: n,
        bits,
    }
}

// Whether a sign is minus.
pub fn is_minus(s: Sign) -> bool
    ensures { result ≡ minus s }
{
    match s {
        Sign::Plus => false,
        Sign::Minus => true,
    }
}

// A number.
pub fn number(a: Result<u64, Refusal>, out: &mut u64) -> Status
    ensures back { result ≡ status (answer_says a) }
    ensures holds { out.new ≡ stored itself (answer_says a) out.old }
{
    match a {
        Ok(n) => {
            *out = n;
            answer()
        }
        Err(why) => refused(why),
    }
}

// The alphabet and the bits of an index.
pub fn indexed(a: Result<Index, Refusal>, alphabet: &mut u64, bits: &mut u64) -> Status
    ensures back { result ≡ status (answer_says a) }
    ensures alphabet { alphabet.new ≡ stored alphabet_of_index (answer_says a) alphabet.old }
    ensures bits { bits.new ≡ stored bits_of_index (answer_says a) bits.old }
{
    match a {
        Ok(x) => {
            *alphabet = x.alphabet;
            *bits = x.bits;
            answer()
        }
        Err(e) => refused(e),
    }
}

// A sign, as whether it is minus, and the alphabet and the bits of an index.
pub fn signed(
    a: Result<SignedTerm, Refusal>,
    sign: &mut bool,
    alphabet: &mut u64,
    bits: &mut u64,
) -> Status
    ensures back { result ≡ status (answer_says a) }
    ensures sign { sign.new ≡ stored minus_of_term (answer_says a) sign.old }
    ensures alphabet { alphabet.new ≡ stored alphabet_of_term (answer_says a) alphabet.old }
    ensures bits { bits.new ≡ stored bits_of_term (answer_says a) bits.old }
{
    match a {
        Ok(term) => {
            *sign = is_minus(term.sign);
            *alphabet = term.index.alphabet;
            *bits = term.index.bits;
            answer()
        }
        Err(e) => refused(e),
    }
}

// A sign, as whether it is minus, the symbol that was deleted, and the alphabet and the bits of what is left.
pub fn deleted(
    a: Result<Removed, Refusal>,
    sign: &mut bool,
    symbol: &mut u64,
    alphabet: &mut u64,
    bits: &mut u64,
) -> Status
    ensures back { result ≡ status (answer_says a) }
    ensures sign { sign.new ≡ stored minus_of_removed (answer_says a) sign.old }
    ensures symbol { symbol.new ≡ stored symbol_of_removed (answer_says a) symbol.old }
    ensures alphabet { alphabet.new ≡ stored alphabet_of_removed (answer_says a) alphabet.old }
    ensures bits { bits.new ≡ stored bits_of_removed (answer_says a) bits.old }
{
    match a {
        Ok(gone) => {
            *sign = is_minus(gone.sign);
            *symbol = gone.symbol;
            *alphabet = gone.index.alphabet;
            *bits = gone.index.bits;
            answer()
        }
        Err(e) => refused(e),
    }
}

// A walk from its parts: whether it stands at an index, the alphabet and the bits of that, and how many it has still to give.
pub fn walk(allowed: bool, standing: bool, over: u64, at: u64, remaining: u64) -> Walk
    ensures { result ≡ walk_at allowed standing over at remaining }
{
    if standing {
        let current = Some(index(allowed, over, at));
        return Walk { current, remaining };
    }
    let current = None;
    Walk { current, remaining }
}

// Whether a walk stands at an index.
fn is_standing(current: Option<Index>) -> bool
    ensures { result ≡ stands_somewhere current }
{
    match current {
        Some(_) => true,
        None => false,
    }
}

// The alphabet of the index that a walk stands at, and 0 if it stands nowhere.
fn alphabet_there(current: Option<Index>) -> u64
    ensures { result ≡ alphabet_there current }
{
    match current {
        Some(x) => x.alphabet,
        None => 0,
    }
}

// The bits of the index that a walk stands at, and 0 if it stands nowhere.
fn bits_there(current: Option<Index>) -> u64
    ensures { result ≡ bits_there current }
{
    match current {
        Some(x) => x.bits,
        None => 0,
    }
}

// The four parts of a walk.
pub fn started(
    a: Result<Walk, Refusal>,
    standing: &mut bool,
    over: &mut u64,
    at: &mut u64,
    remaining: &mut u64,
) -> Status
    ensures back { result ≡ status (answer_says a) }
    ensures standing { standing.new ≡ stored standing_of (answer_says a) standing.old }
    ensures over { over.new ≡ stored over_of (answer_says a) over.old }
    ensures at { at.new ≡ stored at_of (answer_says a) at.old }
    ensures remaining { remaining.new ≡ stored remaining_of (answer_says a) remaining.old }
{
    match a {
        Ok(w) => {
            let current = w.current;
            *standing = is_standing(current);
            *over = alphabet_there(current);
            *at = bits_there(current);
            *remaining = w.remaining;
            answer()
        }
        Err(e) => refused(e),
    }
}

// The alphabet and the bits of the index that a step gives, and the four parts of the walk after it.
pub fn stepped(
    a: Result<Moved, Refusal>,
    standing: &mut bool,
    over: &mut u64,
    at: &mut u64,
    remaining: &mut u64,
    alphabet: &mut u64,
    bits: &mut u64,
) -> Status
    ensures back { result ≡ status (answer_says a) }
    ensures standing { standing.new ≡ stored standing_after (answer_says a) standing.old }
    ensures over { over.new ≡ stored over_after (answer_says a) over.old }
    ensures at { at.new ≡ stored at_after (answer_says a) at.old }
    ensures remaining { remaining.new ≡ stored remaining_after (answer_says a) remaining.old }
    ensures alphabet { alphabet.new ≡ stored alphabet_given (answer_says a) alphabet.old }
    ensures bits { bits.new ≡ stored bits_given (answer_says a) bits.old }
{
    match a {
        Ok(moved) => {
            let current = moved.state.current;
            *standing = is_standing(current);
            *over = alphabet_there(current);
            *at = bits_there(current);
            *remaining = moved.state.remaining;
            *alphabet = moved.index.alphabet;
            *bits = moved.index.bits;
            answer()
        }
        Err(e) => refused(e),
    }
}
