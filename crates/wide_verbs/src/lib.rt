// The requests on wide indices (docs/RULES.md, section 13), each answered by a call of the library. An index is its family and its two halves, the low one first.
#![tactic(auto)]

use replies::{Answered, Reply};
use wide::Wide;

// The wide index whose family and halves stand at these places.
fn index_at(kinds: &[u8], values: &[u64], f: usize, l: usize, h: usize) -> Wide {
    let family = requests::family(kinds, f);
    let low = requests::number(values, l);
    let high = requests::number(values, h);
    Wide { family, low, high }
}

// The requests on words, by their ranks; none if the verb is another one.
fn of_words(verb: &[u8], kinds: &[u8], values: &[u64], lent: &mut [u64]) -> Answered {
    let f = requests::family(kinds, 0);
    let n = requests::number(values, 1);
    let k = requests::number(values, 2);
    let r = requests::number(values, 3);
    if requests::asks(verb, kinds, b"widecount Fnn") {
        return Ok(Some(Reply::Number(wide_count::count(f, n, k)?)));
    }
    if requests::asks(verb, kinds, b"widerank FW") {
        return Ok(Some(Reply::Number(wide_rank::rank(f, requests::list(values, 1))?)));
    }
    if requests::asks(verb, kinds, b"wideunrank Fnnn") {
        return Ok(Some(Reply::Places(wide_unrank::unrank(f, n, k, r, lent)?)));
    }
    if requests::asks(verb, kinds, b"wideunrankover Fnnn") {
        return Ok(Some(Reply::Wide(wide_unrank::unrank_over(f, n, k, r)?)));
    }
    if requests::asks(verb, kinds, b"wideunrankany Fnn") {
        return Ok(Some(Reply::Wide(wide_unrank::unrank_any(f, n, k)?)));
    }
    Ok(None)
}

// The requests on indices; none if the verb is another one.
fn of_index(verb: &[u8], kinds: &[u8], values: &[u64]) -> Answered {
    let x = index_at(kinds, values, 0, 1, 2);
    if requests::asks(verb, kinds, b"widerankof Fnn") {
        return Ok(Some(Reply::Number(wide_rank::rank_of(x)?)));
    }
    if requests::asks(verb, kinds, b"widenext Fnn") {
        return Ok(Some(Reply::Wide(wide_successor::successor(x)?)));
    }
    if requests::asks(verb, kinds, b"widemerge FnnFnn") {
        return Ok(Some(Reply::WideSigned(wide_algebra::merge(
            x,
            index_at(kinds, values, 3, 4, 5),
        )?)));
    }
    if requests::asks(verb, kinds, b"widedelete Fnnn") {
        return Ok(Some(Reply::WideDeleted(wide_deletion::delete(x, requests::number(values, 3))?)));
    }
    Ok(None)
}

// The answer by the group that knows the verb; none if no group does.
pub fn reply(verb: &[u8], kinds: &[u8], values: &[u64], lent: &mut [u64]) -> Answered {
    if let Some(r) = of_words(verb, kinds, values, lent)? {
        return Ok(Some(r));
    }
    of_index(verb, kinds, values)
}
