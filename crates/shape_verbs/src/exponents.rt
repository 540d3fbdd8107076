// The requests on exponents (document 01, "Shapes, digit words, exponents").
use replies::{Answered, Reply};

pub(crate) fn of_exponents(
    verb: &[u8],
    kinds: &[u8],
    values: &[u64],
    lent: &mut [u64],
) -> Answered {
    let entries = requests::list(values, 0);
    if requests::asks(verb, kinds, b"exprank *") {
        return Ok(Some(Reply::Number(composition_rank::rank(entries)?)));
    }
    if requests::asks(verb, kinds, b"expword *") {
        return Ok(Some(Reply::Places(composition::word(entries, lent)?)));
    }
    let n = requests::number(values, 0);
    if requests::asks(verb, kinds, b"expfrom n/*") {
        return Ok(Some(Reply::Places(composition::from_word(n, requests::list(values, 2), lent)?)));
    }
    if requests::asks(verb, kinds, b"expunrank nnn") {
        let k = requests::number(values, 1);
        let r = requests::number(values, 2);
        return Ok(Some(Reply::Places(composition_rank::from_rank(n, k, r, lent)?)));
    }
    if requests::asks(verb, kinds, b"expadd */*") {
        let slash = requests::slash(kinds);
        let first = requests::list_before(values, slash);
        let second = requests::list_after(values, slash);
        return Ok(Some(Reply::Places(composition::add(first, second, lent)?)));
    }
    Ok(None)
}
