// The laws of merging, as tests on what the calls answer.
use answers::{Index, Refusal, Sign, SignedTerm};
use words::Family;

#[derive(Clone, Copy)]
pub struct Triple {
    pub x: Index,
    pub y: Index,
    pub z: Index,
}

fn turned(sign: Sign) -> Sign {
    match sign {
        Sign::Plus => Sign::Minus,
        Sign::Minus => Sign::Plus,
    }
}

// The answer with its sign multiplied by minus, if `turn`.
fn multiplied(turn: bool, s: Result<SignedTerm, Refusal>) -> Result<SignedTerm, Refusal> {
    let term = s?;
    let sign = term.sign;
    let index = term.index;
    if turn {
        return Ok(SignedTerm {
            sign: turned(sign),
            index,
        });
    }
    Ok(term)
}

// One signed term, or refusals with one number.
fn same(a: Result<SignedTerm, Refusal>, b: Result<SignedTerm, Refusal>) -> bool {
    match a {
        Ok(t) => match b {
            Ok(u) => t == u,
            Err(_) => false,
        },
        Err(_) => number(a) == number(b),
    }
}

// The number of an answer's refusal.
fn number(s: Result<SignedTerm, Refusal>) -> Option<u64> {
    match s {
        Ok(_) => None,
        Err(e) => Some(answers::number(e)),
    }
}

// (x y) z, with the product of the two signs.
fn left_first(t: Triple) -> Result<SignedTerm, Refusal> {
    let x = t.x;
    let y = t.y;
    let z = t.z;
    let term = algebra::merge(x, y)?;
    multiplied(term.sign == Sign::Minus, algebra::merge(term.index, z))
}

// x (y z), with the product of the two signs.
fn right_first(t: Triple) -> Result<SignedTerm, Refusal> {
    let x = t.x;
    let y = t.y;
    let z = t.z;
    let term = algebra::merge(y, z)?;
    multiplied(term.sign == Sign::Minus, algebra::merge(x, term.index))
}

fn is_accepted(x: Index) -> bool {
    taking::take(x).is_ok()
}

pub fn accepted(t: Triple) -> bool {
    let x = t.x;
    let y = t.y;
    let z = t.z;
    is_accepted(x) && is_accepted(y) && is_accepted(z)
}

// The number of a merge's refusal.
pub fn of_two(x: Index, y: Index) -> Option<u64> {
    number(algebra::merge(x, y))
}

pub fn of_three(t: Triple) -> Option<u64> {
    number(left_first(t))
}

// x y and y x: the same refusal, or the same index, where for Forbidden the sign turns if both degrees are odd.
pub fn exchanges(x: Index, y: Index) -> bool {
    let odd = bits::count_ones(x.bits) % 2 == 1 && bits::count_ones(y.bits) % 2 == 1;
    let family = x.family;
    let turn = odd && family == Family::Forbidden;
    same(
        multiplied(turn, algebra::merge(x, y)),
        multiplied(false, algebra::merge(y, x)),
    )
}

// Why three accepted records of one family have no product, if so: 5 if sets share a symbol; 1 if the largest alphabet and the degrees of words with
// repeats come to more than 65.
fn expected(t: Triple) -> Option<u64> {
    let x = t.x;
    let y = t.y;
    let z = t.z;
    let family = x.family;
    if family == Family::Allowed {
        let degrees = std::num::wrapping_add_u64(
            std::num::wrapping_add_u64(bits::count_ones(x.bits), bits::count_ones(y.bits)),
            bits::count_ones(z.bits),
        );
        let n = x.alphabet.max(y.alphabet).max(z.alphabet);
        if 65 < std::num::wrapping_add_u64(n, degrees) {
            return Some(1);
        }
        return None;
    }
    if x.bits & y.bits != 0 || (x.bits | y.bits) & z.bits != 0 {
        return Some(5);
    }
    None
}

// Three accepted records of one family: both brackets agree, and answer exactly if they should; and two of them may be exchanged.
pub fn hold(t: Triple) -> bool {
    let x = t.x;
    let y = t.y;
    let left = left_first(t);
    same(left, right_first(t)) && number(left) == expected(t) && exchanges(x, y)
}
