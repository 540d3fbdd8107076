// The requests on sets (document 01, "Terms and their order"): both arguments are numbers.
use replies::{Answered, Reply};

pub(crate) fn of_set(verb: &[u8], kinds: &[u8], values: &[u64]) -> Answered {
    let set = requests::number(values, 0);
    let s = requests::number(values, 1);
    if requests::asks(verb, kinds, b"insert nn") {
        return Ok(Some(Reply::Number(combination::insert(set, s)?)));
    }
    if requests::asks(verb, kinds, b"contains nn") {
        return Ok(Some(Reply::Truth(combination::contains(set, s))));
    }
    if requests::asks(verb, kinds, b"position nn") {
        return Ok(Some(Reply::Number(combination::position(set, s)?)));
    }
    if requests::asks(verb, kinds, b"select nn") {
        return Ok(Some(Reply::Number(combination::select(set, s)?)));
    }
    Ok(None)
}
