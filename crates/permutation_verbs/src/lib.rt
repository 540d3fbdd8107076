// The requests on permutations (docs/RULES.md, section 13; document 01, "Permutations"), each answered by a call of the library. A list
// longer than a record holds stands for a permutation of that length, which every call refuses by 1; `raw`, a length and entries for a record
// of any length and entries.
#![tactic(auto)]

ghost use Rattle.std.specs.Prelude.{◌≤◌};
ghost use Rattle.permutation.specs.Record.{capacity};

use permutation::{CAPACITY, Permutation};
use replies::{Answered, Reply};

// How many of n entries a record holds.
fn held(n: usize) -> usize
    ensures { (result ≤ n) × (result ≤ capacity) }
{
    if n < CAPACITY {
        return n;
    }
    CAPACITY
}

// The record of entries, as far as it holds them, and a length.
fn record(list: &[u64], len: u64) -> Permutation {
    let mut entries = [0u64; CAPACITY];
    let n = held(list.len());
    for i in 0..n {
        entries[i] = list[i];
    }
    Permutation { entries, len }
}

// Whether the word at place i is raw.
fn is_raw(kinds: &[u8], i: usize) -> bool {
    if i < kinds.len() {
        return kinds[i] == b'r';
    }
    false
}

// Whether the word after the `/`, whose place is given, is raw.
fn is_raw_after(kinds: &[u8], slash: usize) -> bool {
    if slash < kinds.len() {
        return is_raw(kinds, slash + 1);
    }
    false
}

// The record that the words of a permutation stand for: a list, or after the word raw the length and the entries.
fn operand(raw: bool, list: &[u64]) -> Permutation {
    if raw {
        return record(requests::list(list, 2), requests::number(list, 1));
    }
    record(list, list.len() as u64)
}

// Writes the entries of a record into the first places.
fn write(entries: [u64; CAPACITY], places: &mut [u64]) {
    let n = held(places.len());
    for i in 0..n {
        places[i] = entries[i];
    }
}

// The reply that gives a permutation: its entries are written into the first places.
fn give(p: Permutation, places: &mut [u64]) -> Answered {
    write(p.entries, places);
    Ok(Some(Reply::Places(p.len)))
}

// Whether the words of a permutation are not too many: after raw and the length at most as many entries as a record has.
fn is_short(raw: bool, words: &[u64]) -> bool {
    if raw {
        return words.len() <= CAPACITY + 2;
    }
    true
}

// Whether a request has one permutation: a list as the first entry says, or in so many words at most raw, a length and entries as the second says.
fn asks_one(verb: &[u8], kinds: &[u8], list: &[u8], raw: &[u8], most: usize) -> bool {
    if requests::asks(verb, kinds, list) {
        return true;
    }
    if !requests::asks(verb, kinds, raw) {
        return false;
    }
    kinds.len() <= most
}

// Whether a request has two permutations, each a list or raw, a length and entries.
fn asks_two(verb: &[u8], kinds: &[u8]) -> bool {
    if requests::asks(verb, kinds, b"permcompose */*") {
        return true;
    }
    if requests::asks(verb, kinds, b"permcompose rn*/*") {
        return true;
    }
    if requests::asks(verb, kinds, b"permcompose */rn*") {
        return true;
    }
    requests::asks(verb, kinds, b"permcompose rn*/rn*")
}

// The requests that are answered by a number or a sign.
fn of_record(verb: &[u8], kinds: &[u8], values: &[u64]) -> Answered {
    if asks_one(verb, kinds, b"permrank *", b"permrank rn*", CAPACITY + 2) {
        let p = operand(is_raw(kinds, 0), requests::list(values, 0));
        return Ok(Some(Reply::Number(permutation_order::rank(p)?)));
    }
    if asks_one(verb, kinds, b"permsign *", b"permsign rn*", CAPACITY + 2) {
        let p = operand(is_raw(kinds, 0), requests::list(values, 0));
        return Ok(Some(Reply::Sign(permutation_group::sign(p)?)));
    }
    if asks_one(
        verb,
        kinds,
        b"permimage n/*",
        b"permimage n/rn*",
        CAPACITY + 4,
    ) {
        let p = operand(is_raw(kinds, 2), requests::list(values, 2));
        return Ok(Some(Reply::Number(permutation::image(p, requests::number(values, 0))?)));
    }
    Ok(None)
}

// The composition, if neither permutation has too many words.
fn composed(kinds: &[u8], values: &[u64], places: &mut [u64]) -> Answered {
    let slash = requests::slash(kinds);
    let left = is_raw(kinds, 0);
    let right = is_raw_after(kinds, slash);
    if !is_short(left, requests::list_before(values, slash)) {
        return Ok(None);
    }
    if !is_short(right, requests::list_after(values, slash)) {
        return Ok(None);
    }
    let p = operand(left, requests::list_before(values, slash));
    let q = operand(right, requests::list_after(values, slash));
    give(permutation_group::compose(p, q)?, places)
}

// The requests that are answered by a permutation.
fn arranged(verb: &[u8], kinds: &[u8], values: &[u64], places: &mut [u64]) -> Answered {
    if asks_one(
        verb,
        kinds,
        b"perminverse *",
        b"perminverse rn*",
        CAPACITY + 2,
    ) {
        let p = operand(is_raw(kinds, 0), requests::list(values, 0));
        return give(permutation_group::inverse(p)?, places);
    }
    if asks_one(verb, kinds, b"permnext *", b"permnext rn*", CAPACITY + 2) {
        let p = operand(is_raw(kinds, 0), requests::list(values, 0));
        return give(permutation_order::successor(p)?, places);
    }
    if requests::asks(verb, kinds, b"permunrank nn") {
        let n = requests::number(values, 0);
        let r = requests::number(values, 1);
        return give(permutation_order::unrank(n, r)?, places);
    }
    if asks_two(verb, kinds) {
        return composed(kinds, values, places);
    }
    Ok(None)
}

// The answer to a request on permutations; none if it is another. A permutation is given as a record and no output is lent for it, so its
// entries go into the first of all places.
pub fn reply(verb: &[u8], kinds: &[u8], values: &[u64], places: &mut [u64]) -> Answered {
    if let Some(r) = of_record(verb, kinds, values)? {
        return Ok(Some(r));
    }
    arranged(verb, kinds, values, places)
}
