// The requests on terms whose answers carry a sign, and the stabilizer (document 01, "Terms and their order").
use answers::Index;
use replies::{Answered, Reply};

// The requests on a word in any order, and on two indices.
pub(crate) fn products(verb: &[u8], kinds: &[u8], values: &[u64]) -> Answered {
    let f = requests::family(kinds, 0);
    if requests::asks(verb, kinds, b"canonical Fn*") {
        return Ok(Some(Reply::Signed(algebra::canonicalise(
            f,
            requests::number(values, 1),
            requests::list(values, 2),
        )?)));
    }
    let x = Index {
        family: f,
        alphabet: requests::number(values, 1),
        bits: requests::number(values, 2),
    };
    let y = Index {
        family: requests::family(kinds, 3),
        alphabet: requests::number(values, 4),
        bits: requests::number(values, 5),
    };
    if requests::asks(verb, kinds, b"merge FnnFnn") {
        return Ok(Some(Reply::Signed(algebra::merge(x, y)?)));
    }
    Ok(None)
}

// The requests on one index.
pub(crate) fn of_index(verb: &[u8], kinds: &[u8], values: &[u64]) -> Answered {
    let x = Index {
        family: requests::family(kinds, 0),
        alphabet: requests::number(values, 1),
        bits: requests::number(values, 2),
    };
    let p = requests::number(values, 3);
    if requests::asks(verb, kinds, b"delete Fnnn") {
        return Ok(Some(Reply::Deleted(deletion::delete(x, p)?)));
    }
    if requests::asks(verb, kinds, b"complement Fnnn") {
        return Ok(Some(Reply::Signed(deletion::complement(x, p)?)));
    }
    if requests::asks(verb, kinds, b"stabilizer Fnn") {
        return Ok(Some(Reply::Number(deletion::stabilizer(x)?)));
    }
    Ok(None)
}
