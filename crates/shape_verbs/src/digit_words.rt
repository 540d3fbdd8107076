// The requests on digit words (document 01, "Shapes, digit words, exponents"): a word is its radix, its degree and its rank.
use digits::DigitWord;
use replies::{Answered, Reply};

// The word whose three numbers begin a list.
fn word(list: &[u64]) -> DigitWord {
    DigitWord {
        radix: requests::number(list, 0),
        degree: requests::number(list, 1),
        rank: requests::number(list, 2),
    }
}

// The requests on one word.
pub(crate) fn of_word(verb: &[u8], kinds: &[u8], values: &[u64], lent: &mut [u64]) -> Answered {
    let x = word(values);
    let p = requests::number(values, 3);
    if requests::asks(verb, kinds, b"digitsymbols nnn") {
        return Ok(Some(Reply::Places(digits::symbols(x, lent)?)));
    }
    if requests::asks(verb, kinds, b"digitsymbol nnnn") {
        return Ok(Some(Reply::Number(digits::symbol(x, p)?)));
    }
    if requests::asks(verb, kinds, b"digitmultiplicity nnnn") {
        return Ok(Some(Reply::Number(digits_algebra::multiplicity(x, p)?)));
    }
    if requests::asks(verb, kinds, b"digitstabilizer nnn") {
        return Ok(Some(Reply::Number(digits_algebra::stabilizer(x)?)));
    }
    if requests::asks(verb, kinds, b"digitdelete nnnn") {
        return Ok(Some(Reply::DigitDeleted(digits_algebra::delete(x, p)?)));
    }
    Ok(None)
}

// The requests on a radix, and on two words.
pub(crate) fn of_words(verb: &[u8], kinds: &[u8], values: &[u64]) -> Answered {
    let radix = requests::number(values, 0);
    if requests::asks(verb, kinds, b"digits n/*") {
        return Ok(Some(Reply::DigitWord(digits::from_symbols(radix, requests::list(values, 2))?)));
    }
    if requests::asks(verb, kinds, b"digitcount nn") {
        return Ok(Some(Reply::Number(digits::count(radix, requests::number(values, 1))?)));
    }
    if requests::asks(verb, kinds, b"digitconcat nnnnnn") {
        return Ok(Some(Reply::DigitWord(digits_algebra::concat(
            word(values),
            word(requests::list(values, 3)),
        )?)));
    }
    Ok(None)
}
