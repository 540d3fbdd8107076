// The requests on old tables (docs/RULES.md, section 13), each answered by a call of the library: lexrank, lexunrank, lexnext, and the converter, lexto and lexfrom.
#![tactic(auto)]

ghost use Rattle.std.specs.Prelude.{◌≤◌};

use replies::{Answered, Reply};
use words::Family;

// The requests on words in lexicographic order; none if the verb is another one, or its words are not these.
pub fn reply(verb: &[u8], kinds: &[u8], values: &[u64], lent: &mut [u64]) -> Answered {
    let f = requests::family(kinds, 0);
    let n = requests::number(values, 1);
    if requests::asks(verb, kinds, b"lexrank Fn*") {
        return Ok(Some(Reply::Number(lexical::rank(f, n, requests::list(values, 2))?)));
    }
    if requests::asks(verb, kinds, b"lexunrank Fnnn") {
        let k = requests::number(values, 2);
        let r = requests::number(values, 3);
        return Ok(Some(Reply::Places(lexical::unrank(f, n, k, r, lent)?)));
    }
    if requests::asks(verb, kinds, b"lexnext Fn*") {
        return Ok(Some(Reply::Places(lexical::successor(f, n, requests::list(values, 2), lent)?)));
    }
    Ok(None)
}

// How many of n lent bytes a body of m bytes is converted into: as many as it has, or, where a room was asked for, all.
fn room_for(asked: bool, m: usize, n: usize) -> usize
    ensures { result ≤ n }
{
    if asked {
        return n;
    }
    if n < m {
        return n;
    }
    m
}

// A body converted into the lent bytes.
fn convert(
    back: bool,
    f: Family,
    n: u64,
    k: u64,
    body: &[u8],
    lent: &mut [u8],
    asked: bool,
) -> Answered {
    let room = room_for(asked, body.len(), lent.len());
    let m = conversion::convert(back, f, n, k, body, &mut lent[0..room])?;
    Ok(Some(Reply::Bytes(m)))
}

// The requests on bodies of old tables, whose bytes are held in a buffer of the caller's; none if the verb is another one, or its words are not these.
pub fn converted(
    verb: &[u8],
    line: &[u8],
    from: usize,
    held: &mut [u8],
    lent: &mut [u8],
    asked: bool,
) -> Answered {
    let back = fields::asks(verb, b"lexfrom", line, from, b"FnnB");
    if !back {
        if !fields::asks(verb, b"lexto", line, from, b"FnnB") {
            return Ok(None);
        }
    }
    let f = fields::family(line, from, 0);
    let n = fields::number(line, from, 1);
    let k = fields::number(line, from, 2);
    let m = fields::bytes(line, from, 3, held);
    convert(back, f, n, k, &held[0..m], lent, asked)
}
