// The answer to a request (docs/RULES.md, section 13), put into the buffer of the output from a place on. Each function answers the place
// after it.
#![tactic(auto)]

use answers::{Index, Refusal, Sign, SignedTerm};
use deletion::Removed;
use digits::{DigitWord, TakenOut};
use mass::{FrameRefusal, Sample};
use monotone_walk::{Moved, Walk};
use wide::{Wide, WideGap, WideTerm};

// What a request is answered with.
#[derive(Clone, Copy)]
pub enum Reply {
    Number(u64),
    Index(Index),
    Sign(Sign),
    Signed(SignedTerm),
    Deleted(Removed),
    Wide(Wide),
    WideSigned(WideTerm),
    WideDeleted(WideGap),
    Step(Moved),
    DigitWord(DigitWord),
    DigitDeleted(TakenOut),
    Truth(bool),
    // how many of the lent places a call has written
    Places(u64),
    // the same of lent bytes, and of lent signed numbers
    Bytes(u64),
    Entries(u64),
    // an image in pieces of which nothing is told yet
    Open,
    Sample(Sample),
    Mass(f64),
}

// Why a request is refused; a call on a frame names the frame as well.
#[derive(Clone, Copy)]
pub enum Refused {
    Plain(Refusal),
    Framed(FrameRefusal),
}

impl From<Refusal> for Refused {
    fn from(e: Refusal) -> Refused {
        Refused::Plain(e)
    }
}

impl From<FrameRefusal> for Refused {
    fn from(e: FrameRefusal) -> Refused {
        Refused::Framed(e)
    }
}

// What is answered to the words of a line: a reply or a refusal, and none where they are no request.
pub type Answered = Result<Option<Reply>, Refused>;

pub fn bad(out: &mut [u8], at: usize) -> usize {
    text::put(out, at, b"bad line\n")
}

// The number of a refusal, with its place where it carries one.
fn number_and_place(out: &mut [u8], at: usize, e: Refusal) -> usize {
    let at = text::put_number(out, at, answers::number(e));
    if !answers::carries(e) {
        return at;
    }
    let at = text::put(out, at, b" at ");
    text::put_number(out, at, answers::place(e))
}

// A refusal by its number, with its place where it carries one.
fn refusal(out: &mut [u8], at: usize, e: Refusal) -> usize {
    let at = text::put(out, at, b"refused ");
    let at = number_and_place(out, at, e);
    text::put_byte(out, at, b'\n')
}

// A refusal that names a frame.
fn frame_refusal(out: &mut [u8], at: usize, e: FrameRefusal) -> usize {
    let at = text::put(out, at, b"refused ");
    let at = number_and_place(out, at, e.refusal);
    let at = text::put(out, at, b" frame ");
    number(out, at, e.frame)
}

fn put_refused(out: &mut [u8], at: usize, e: Refused) -> usize {
    match e {
        Refused::Plain(e) => refusal(out, at, e),
        Refused::Framed(e) => frame_refusal(out, at, e),
    }
}

// ---- the replies

fn number(out: &mut [u8], at: usize, n: u64) -> usize {
    let at = text::put_number(out, at, n);
    text::put_byte(out, at, b'\n')
}

// The alphabet and the bits of an index.
fn put_index(out: &mut [u8], at: usize, x: Index) -> usize {
    let at = text::put_number(out, at, x.alphabet);
    let at = text::put_byte(out, at, b' ');
    text::put_number(out, at, x.bits)
}

// The same alone.
fn index(out: &mut [u8], at: usize, x: Index) -> usize {
    let at = put_index(out, at, x);
    text::put_byte(out, at, b'\n')
}

fn put_sign(out: &mut [u8], at: usize, s: Sign) -> usize {
    match s {
        Sign::Plus => text::put_byte(out, at, b'+'),
        Sign::Minus => text::put_byte(out, at, b'-'),
    }
}

// A sign alone.
fn sign(out: &mut [u8], at: usize, s: Sign) -> usize {
    let at = put_sign(out, at, s);
    text::put_byte(out, at, b'\n')
}

// A sign, and a space after it.
fn put_sign_before(out: &mut [u8], at: usize, s: Sign) -> usize {
    let at = put_sign(out, at, s);
    text::put_byte(out, at, b' ')
}

// A sign, the alphabet and the bits of an index.
fn signed(out: &mut [u8], at: usize, term: SignedTerm) -> usize {
    let at = put_sign_before(out, at, term.sign);
    index(out, at, term.index)
}

// A sign and a deleted symbol, with a space after each.
fn put_gap(out: &mut [u8], at: usize, s: Sign, symbol: u64) -> usize {
    let at = put_sign_before(out, at, s);
    let at = text::put_number(out, at, symbol);
    text::put_byte(out, at, b' ')
}

// A sign, the deleted symbol, the alphabet and the bits of what is left.
fn deleted(out: &mut [u8], at: usize, gone: Removed) -> usize {
    let at = put_gap(out, at, gone.sign, gone.symbol);
    index(out, at, gone.index)
}

// The two halves of a wide index, the low one first.
fn wide(out: &mut [u8], at: usize, x: Wide) -> usize {
    pair(out, at, x.low, x.high)
}

// A sign and the halves of a wide index.
fn wide_signed(out: &mut [u8], at: usize, term: WideTerm) -> usize {
    let at = put_sign_before(out, at, term.sign);
    wide(out, at, term.index)
}

// A sign, the deleted symbol and the halves of what is left.
fn wide_deleted(out: &mut [u8], at: usize, gone: WideGap) -> usize {
    let at = put_gap(out, at, gone.sign, gone.symbol);
    wide(out, at, gone.index)
}

// Where a walk stands, and what remains of it.
fn standing(out: &mut [u8], at: usize, w: Walk) -> usize {
    let current = w.current;
    match current {
        Some(x) => {
            let at = text::put(out, at, b"here ");
            let at = put_index(out, at, x);
            let at = text::put_byte(out, at, b' ');
            number(out, at, w.remaining)
        }
        None => {
            let at = text::put(out, at, b"nowhere ");
            number(out, at, w.remaining)
        }
    }
}

// The index that a step gives and the walk after it.
fn step(out: &mut [u8], at: usize, moved: Moved) -> usize {
    let at = put_index(out, at, moved.index);
    let at = text::put_byte(out, at, b' ');
    standing(out, at, moved.state)
}

// Two numbers.
fn pair(out: &mut [u8], at: usize, m: u64, n: u64) -> usize {
    let at = text::put_number(out, at, m);
    let at = text::put_byte(out, at, b' ');
    number(out, at, n)
}

// Yes or no.
fn truth(out: &mut [u8], at: usize, a: bool) -> usize {
    if a {
        return text::put(out, at, b"yes\n");
    }
    text::put(out, at, b"no\n")
}

// The i-th number of a list, after a space where it is not the first.
fn item(out: &mut [u8], at: usize, i: usize, n: u64) -> usize {
    if i == 0 {
        return text::put_number(out, at, n);
    }
    let at = text::put_byte(out, at, b' ');
    text::put_number(out, at, n)
}

// Numbers, with a space between two of them.
fn numbers(out: &mut [u8], at: usize, list: &[u64]) -> usize {
    let mut to = at;
    for (i, n) in list.iter().enumerate() {
        to = item(out, to, i, *n);
    }
    text::put_byte(out, to, b'\n')
}

// The places that a call has written, n of those that it was lent.
fn places(out: &mut [u8], at: usize, n: u64, lent: &[u64]) -> usize {
    let k = n as usize;
    if k > lent.len() {
        return bad(out, at);
    }
    numbers(out, at, &lent[0..k])
}

// The bytes that a call has written, n of those that it was lent.
fn bytes(out: &mut [u8], at: usize, n: u64, lent: &[u8]) -> usize {
    let k = n as usize;
    if k > lent.len() {
        return bad(out, at);
    }
    let at = spelling::put_bytes(out, at, &lent[0..k]);
    text::put_byte(out, at, b'\n')
}

// The i-th signed number of a list, after a space where it is not the first.
fn signed_item(out: &mut [u8], at: usize, i: usize, z: i64) -> usize {
    if i == 0 {
        return spelling::put_signed(out, at, z);
    }
    let at = text::put_byte(out, at, b' ');
    spelling::put_signed(out, at, z)
}

// Signed numbers, with a space between two of them.
fn signed_numbers(out: &mut [u8], at: usize, list: &[i64]) -> usize {
    let mut to = at;
    for (i, z) in list.iter().enumerate() {
        to = signed_item(out, to, i, *z);
    }
    text::put_byte(out, to, b'\n')
}

// The signed numbers that a call has written, n of the places that it was lent.
fn entries(out: &mut [u8], at: usize, n: u64, lent: &[i64]) -> usize {
    let k = n as usize;
    if k > lent.len() {
        return bad(out, at);
    }
    signed_numbers(out, at, &lent[0..k])
}

// A frame and its two readings.
fn sample(out: &mut [u8], at: usize, s: Sample) -> usize {
    let at = text::put_number(out, at, s.frame);
    let at = text::put_byte(out, at, b' ');
    let at = float_text::put(out, at, s.pressure);
    let at = text::put_byte(out, at, b' ');
    mass(out, at, s.temperature)
}

fn mass(out: &mut [u8], at: usize, x: f64) -> usize {
    let at = float_text::put(out, at, x);
    text::put_byte(out, at, b'\n')
}

// A reply. The places, the bytes and the signed numbers are those that calls write to.
fn put_reply(
    out: &mut [u8],
    at: usize,
    r: Reply,
    lent: &[u64],
    written: &[u8],
    table: &[i64],
) -> usize {
    match r {
        Reply::Number(n) => number(out, at, n),
        Reply::Index(x) => index(out, at, x),
        Reply::Sign(s) => sign(out, at, s),
        Reply::Signed(term) => signed(out, at, term),
        Reply::Deleted(gone) => deleted(out, at, gone),
        Reply::Wide(x) => wide(out, at, x),
        Reply::WideSigned(term) => wide_signed(out, at, term),
        Reply::WideDeleted(gone) => wide_deleted(out, at, gone),
        Reply::Step(moved) => step(out, at, moved),
        Reply::DigitWord(x) => pair(out, at, x.degree, x.rank),
        // the deleted symbol and the rank of the digit word that is left
        Reply::DigitDeleted(gone) => pair(out, at, gone.symbol, gone.left.rank),
        Reply::Truth(a) => truth(out, at, a),
        Reply::Places(n) => places(out, at, n, lent),
        Reply::Bytes(n) => bytes(out, at, n, written),
        Reply::Entries(n) => entries(out, at, n, table),
        Reply::Open => text::put(out, at, b"open\n"),
        Reply::Sample(s) => sample(out, at, s),
        Reply::Mass(x) => mass(out, at, x),
    }
}

// Puts what is answered to a line, with the places, the bytes and the signed numbers that calls write to.
pub fn put(
    out: &mut [u8],
    at: usize,
    a: Answered,
    lent: &[u64],
    written: &[u8],
    table: &[i64],
) -> usize {
    match a {
        Ok(Some(r)) => put_reply(out, at, r, lent, written, table),
        Ok(None) => bad(out, at),
        Err(e) => put_refused(out, at, e),
    }
}
