// The requests on terms (document 01, "Terms and their order").
use answers::{Index, Refusal};
use monotone_walk::Walk;
use replies::{Answered, Reply};
use words::Family;

// The index that the s-th step of a walk gives, or the first refusal on the way.
fn stepped(walk: Walk, s: u64) -> Result<Index, Refusal> {
    let mut w = walk;
    for _ in 1..s {
        w = monotone_walk::step(w)?.state;
    }
    Ok(monotone_walk::step(w)?.index)
}

// The same without the steps before it: a walk lists the words in their order, so its s-th step gives the index of rank s - 1.
fn far_step(f: Family, n: u64, k: u64, s: u64) -> Result<Index, Refusal> {
    let count = monotone_count::count(f, n, k)?;
    if s > count {
        return Err(Refusal::Last);
    }
    if s == 0 {
        return Err(Refusal::Last);
    }
    monotone_unrank::unrank_over(f, n, k, s - 1)
}

// What the s-th step of a walk gives: by steps up to the 4,096th, and by the rank beyond.
fn walked(f: Family, n: u64, k: u64, s: u64) -> Result<Index, Refusal> {
    if s > 4096 {
        return far_step(f, n, k, s);
    }
    stepped(monotone_count::start(f, n, k)?, s)
}

fn walk(f: Family, n: u64, k: u64, s: u64) -> Answered {
    if s == 0 {
        return Ok(None);
    }
    Ok(Some(Reply::Index(walked(f, n, k, s)?)))
}

// The requests that name an alphabet, or every one.
pub(crate) fn over(verb: &[u8], kinds: &[u8], values: &[u64], lent: &mut [u64]) -> Answered {
    let f = requests::family(kinds, 0);
    let a = requests::number(values, 1);
    let b = requests::number(values, 2);
    let c = requests::number(values, 3);
    if requests::asks(verb, kinds, b"count Fnn") {
        return Ok(Some(Reply::Number(monotone_count::count(f, a, b)?)));
    }
    if requests::asks(verb, kinds, b"walk Fnnn") {
        return walk(f, a, b, c);
    }
    if requests::asks(verb, kinds, b"unrank Fnnn") {
        return Ok(Some(Reply::Places(monotone_unrank::unrank(f, a, b, c, lent)?)));
    }
    if requests::asks(verb, kinds, b"unrankover Fnnn") {
        return Ok(Some(Reply::Index(monotone_unrank::unrank_over(f, a, b, c)?)));
    }
    if requests::asks(verb, kinds, b"unrankany Fnn") {
        return Ok(Some(Reply::Index(monotone_unrank::unrank_any(f, a, b)?)));
    }
    Ok(None)
}

// The requests on a walk that was made up.
pub(crate) fn of_walk(verb: &[u8], kinds: &[u8], values: &[u64]) -> Answered {
    if requests::asks(verb, kinds, b"step hFnnn") {
        let current = Some(Index {
            family: requests::family(kinds, 1),
            alphabet: requests::number(values, 2),
            bits: requests::number(values, 3),
        });
        let remaining = requests::number(values, 4);
        return Ok(Some(Reply::Step(monotone_walk::step(Walk { current, remaining })?)));
    }
    if requests::asks(verb, kinds, b"step wFn") {
        let current = None;
        let remaining = requests::number(values, 2);
        return Ok(Some(Reply::Step(monotone_walk::step(Walk { current, remaining })?)));
    }
    Ok(None)
}

// The requests on a word.
pub(crate) fn of_word(verb: &[u8], kinds: &[u8], values: &[u64]) -> Answered {
    let f = requests::family(kinds, 0);
    let w = requests::list(values, 1);
    if requests::asks(verb, kinds, b"rank F*") {
        return Ok(Some(Reply::Number(monotone_rank::rank(f, w)?)));
    }
    if requests::asks(verb, kinds, b"pack Fn*") {
        return Ok(Some(Reply::Index(monotone::pack(
            f,
            requests::number(values, 1),
            requests::list(values, 2),
        )?)));
    }
    Ok(None)
}

// The requests on an index.
pub(crate) fn of_index(verb: &[u8], kinds: &[u8], values: &[u64], lent: &mut [u64]) -> Answered {
    let x = Index {
        family: requests::family(kinds, 0),
        alphabet: requests::number(values, 1),
        bits: requests::number(values, 2),
    };
    let p = requests::number(values, 3);
    if requests::asks(verb, kinds, b"rankof Fnn") {
        return Ok(Some(Reply::Number(monotone_rank::rank_of(x)?)));
    }
    if requests::asks(verb, kinds, b"unpack Fnn") {
        return Ok(Some(Reply::Places(monotone::unpack(x, lent)?)));
    }
    if requests::asks(verb, kinds, b"next Fnn") {
        return Ok(Some(Reply::Index(monotone_walk::successor(x)?)));
    }
    if requests::asks(verb, kinds, b"symbol Fnnn") {
        return Ok(Some(Reply::Number(monotone::symbol(x, p)?)));
    }
    if requests::asks(verb, kinds, b"degree Fnn") {
        return Ok(Some(Reply::Number(monotone::degree(x)?)));
    }
    Ok(None)
}
