// The cases: all small records, records at the limits, and wide ones drawn at random.
use crate::laws::Triple;
use answers::Index;
use words::Family;

// Each space of triples is of one family: of Allowed if its part is true.
#[derive(Clone, Copy)]
pub enum Space {
    Pairs,
    LimitPairs,
    Small(bool),
    Limits(bool),
    Wide(bool),
}

pub fn is_of_two(space: Space) -> bool {
    match space {
        Space::Pairs => true,
        Space::LimitPairs => true,
        Space::Small(_) => false,
        Space::Limits(_) => false,
        Space::Wide(_) => false,
    }
}

// Case t of a space; a pair has its second record twice.
pub fn triple(space: Space, t: u64, seed: u64) -> Triple {
    match space {
        Space::Pairs => {
            let y = small(t / 80 % 2 == 1, t % 80);
            Triple {
                x: small(t / 12800 == 1, t / 160),
                y,
                z: y,
            }
        }
        Space::LimitPairs => {
            let y = limit(t / 12 % 2 == 1, t % 12);
            Triple {
                x: limit(t / 288 == 1, t / 24),
                y,
                z: y,
            }
        }
        Space::Small(allowed) => Triple {
            x: small(allowed, t / 6400),
            y: small(allowed, t / 80),
            z: small(allowed, t),
        },
        Space::Limits(allowed) => Triple {
            x: limit(allowed, t / 144),
            y: limit(allowed, t / 12),
            z: limit(allowed, t),
        },
        Space::Wide(allowed) => wide(allowed, t, seed),
    }
}

fn family(allowed: bool) -> Family {
    if allowed {
        return Family::Allowed;
    }
    Family::Forbidden
}

fn over(allowed: bool, alphabet: u64, bits: u64) -> Index {
    let family = family(allowed);
    Index {
        family,
        alphabet,
        bits,
    }
}

// The records over alphabets up to 4 with bits below 16, accepted or not: 80 of each family.
pub fn small(allowed: bool, i: u64) -> Index {
    over(allowed, i / 16 % 5, i % 16)
}

// Records at the limits of the width, 12 of each family: 0, 1 and all symbols, the lowest and the highest, halves; an alphabet too small and one too large.
fn limit(allowed: bool, i: u64) -> Index {
    if allowed {
        return allowed_limit(i % 12);
    }
    set_limit(i % 12)
}

fn set_limit(i: u64) -> Index {
    match i {
        0 => over(false, 0, 0),
        1 => over(false, 64, 0),
        2 => over(false, 65, 0),
        3 => over(false, 64, 18446744073709551615),
        4 => over(false, 1, 1),
        5 => over(false, 64, 9223372036854775808),
        6 => over(false, 63, 9223372036854775808),
        7 => over(false, 64, 9223372036854775809),
        8 => over(false, 63, 6148914691236517205),
        9 => over(false, 64, 12297829382473034410),
        10 => over(false, 32, 4294967295),
        _ => over(false, 64, 18446744069414584320),
    }
}

fn allowed_limit(i: u64) -> Index {
    match i {
        0 => over(true, 0, 0),
        1 => over(true, 64, 0),
        2 => over(true, 64, 1),
        3 => over(true, 64, 9223372036854775808),
        4 => over(true, 64, 3),
        5 => over(true, 1, 1),
        6 => over(true, 1, 4294967295),
        7 => over(true, 33, 2147483647),
        8 => over(true, 1, 9223372036854775807),
        9 => over(true, 62, 3),
        10 => over(true, 21, 8796090925056),
        _ => over(true, 20, 8796090925056),
    }
}

// The next number of a row that looks like chance (Marsaglia's xorshift, 13, 7, 17).
pub fn next(seed: u64) -> u64 {
    let a = seed ^ seed << 13;
    let b = a ^ a >> 7;
    b ^ b << 17
}

fn wide(allowed: bool, t: u64, seed: u64) -> Triple {
    let second = next(seed);
    if allowed {
        return wide_words(t, seed, second);
    }
    wide_sets(t, seed, second)
}

// Three sets with no symbol in common, over 64 symbols; in every fourth case, the first symbol of the first is given to the last too.
fn wide_sets(t: u64, r: u64, s: u64) -> Triple {
    let a = r & s;
    let mut c = (r ^ u64::MAX) & s;
    if t % 4 == 0 {
        c |= a ^ bits::without_lowest(a);
    }
    Triple {
        x: over(false, 64, a),
        y: over(false, 64, r & (s ^ u64::MAX)),
        z: over(false, 64, c),
    }
}

// Three words with repeats of some 8 symbols each, over 32 symbols; one of the three is over an alphabet that takes the product to the limit, or one past or
// short of it.
fn wide_words(t: u64, r: u64, s: u64) -> Triple {
    let third = next(s);
    let a = (r & s) >> 32;
    let b = (s & third) >> 32;
    let c = (r & third) >> 32;
    let degrees = std::num::wrapping_add_u64(
        std::num::wrapping_add_u64(bits::count_ones(a), bits::count_ones(b)),
        bits::count_ones(c),
    );
    let n = std::num::wrapping_sub_u64(64 + t / 3 % 3, degrees);
    let x = over(true, 32, a);
    let y = over(true, 32, b);
    let z = over(true, 32, c);
    match t % 3 {
        0 => Triple {
            x: over(true, n, a),
            y,
            z,
        },
        1 => Triple {
            x,
            y: over(true, n, b),
            z,
        },
        _ => Triple {
            x,
            y,
            z: over(true, n, c),
        },
    }
}
