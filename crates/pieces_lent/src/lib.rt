// The check of an image that comes in pieces (02, section 13), its state lent in four parts: the first 772 bytes, how many have been seen, and the verdict as two numbers.
// This is the form for callers that cannot pass an enum or a large record. The verdict is 0 for open, 1 for good and 2 for bad, every other number is read as 2; the number
// beside it is how many tables there are, or the offset. Anyone may make a state up.
#![tactic(auto)]

ghost use Rattle.std.specs.Prelude.{◌≡◌};
ghost use Rattle.pieces.specs.Pieces.{start as start_of, fed, closed};
ghost use Rattle.pieces_lent.specs.Parts.{verdict_at, state_at, code_of, number_in};

use pieces::{Pieces, Verdict};

// The verdict that two numbers stand for.
pub fn verdict(code: u64, number: u64) -> Verdict
    ensures { result ≡ verdict_at code number }
{
    if code == 0 {
        return Verdict::Open;
    }
    if code == 1 {
        return Verdict::Good(number);
    }
    Verdict::Bad(number)
}

// The number that stands for a verdict.
fn code(v: Verdict) -> u64
    ensures { result ≡ code_of v }
{
    match v {
        Verdict::Open => 0,
        Verdict::Good(_) => 1,
        Verdict::Bad(_) => 2,
    }
}

// The number beside it, 0 while the verdict is open.
fn number(v: Verdict) -> u64
    ensures { result ≡ number_in v }
{
    match v {
        Verdict::Open => 0,
        Verdict::Good(t) => t,
        Verdict::Bad(at) => at,
    }
}

// The state that four parts stand for.
fn taken(bytes: &[u8; 772], seen: u64, code: u64, number: u64) -> Pieces
    ensures { result ≡ state_at bytes.now seen code number }
{
    let verdict = verdict(code, number);
    Pieces {
        bytes: *bytes,
        seen,
        verdict,
    }
}

// A state, put into its four parts: the verdict.
fn put(p: Pieces, bytes: &mut [u8; 772], seen: &mut u64, state: &mut u64, at: &mut u64) -> Verdict
    ensures verdict { result ≡ p.verdict }
    ensures bytes { bytes.new ≡ p.bytes }
    ensures seen { seen.new ≡ p.seen }
    ensures state { state.new ≡ code_of p.verdict }
    ensures at { at.new ≡ number_in p.verdict }
{
    let kept = p.bytes;
    let verdict = p.verdict;
    *bytes = kept;
    *seen = p.seen;
    *state = code(verdict);
    *at = number(verdict);
    verdict
}

// The state before the first piece, whatever the parts held.
pub fn start(bytes: &mut [u8; 772], seen: &mut u64, state: &mut u64, at: &mut u64) -> Verdict
    ensures verdict { result ≡ start_of.verdict }
    ensures bytes { bytes.new ≡ start_of.bytes }
    ensures seen { seen.new ≡ start_of.seen }
    ensures state { state.new ≡ code_of start_of.verdict }
    ensures at { at.new ≡ number_in start_of.verdict }
{
    put(pieces::start(), bytes, seen, state, at)
}

// The state after one more piece.
pub fn feed(
    bytes: &mut [u8; 772],
    seen: &mut u64,
    state: &mut u64,
    at: &mut u64,
    piece: &[u8],
) -> Verdict
    ensures verdict { result ≡ (fed (state_at bytes.old seen.old state.old at.old) piece.now).verdict }
    ensures bytes { bytes.new ≡ (fed (state_at bytes.old seen.old state.old at.old) piece.now).bytes }
    ensures seen { seen.new ≡ (fed (state_at bytes.old seen.old state.old at.old) piece.now).seen }
    ensures state { state.new ≡ code_of (fed (state_at bytes.old seen.old state.old at.old) piece.now).verdict }
    ensures at { at.new ≡ number_in (fed (state_at bytes.old seen.old state.old at.old) piece.now).verdict }
{
    let p = taken(bytes, *seen, *state, *at);
    put(pieces::feed(p, piece), bytes, seen, state, at)
}

// The state after the end of the image.
pub fn end(bytes: &mut [u8; 772], seen: &mut u64, state: &mut u64, at: &mut u64) -> Verdict
    ensures verdict { result ≡ (closed (state_at bytes.old seen.old state.old at.old)).verdict }
    ensures bytes { bytes.new ≡ (closed (state_at bytes.old seen.old state.old at.old)).bytes }
    ensures seen { seen.new ≡ (closed (state_at bytes.old seen.old state.old at.old)).seen }
    ensures state { state.new ≡ code_of (closed (state_at bytes.old seen.old state.old at.old)).verdict }
    ensures at { at.new ≡ number_in (closed (state_at bytes.old seen.old state.old at.old)).verdict }
{
    let p = taken(bytes, *seen, *state, *at);
    put(pieces::end(p), bytes, seen, state, at)
}
