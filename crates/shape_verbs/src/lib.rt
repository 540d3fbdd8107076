// The requests on shapes, digit words and exponents (docs/RULES.md, section 13), each answered by a call of the library.
#![tactic(auto)]

mod digit_words; // digit_words.rt: digits and the verbs that begin with digit
mod exponents; // exponents.rt: the verbs that begin with exp
mod shapes; // shapes.rt: shapecount, strides, linearize, delinearize, corner

use replies::Answered;

// The answer by the group that knows the verb; none if no group does.
pub fn reply(verb: &[u8], kinds: &[u8], values: &[u64], lent: &mut [u64]) -> Answered {
    if let Some(r) = shapes::of_shape(verb, kinds, values, lent)? {
        return Ok(Some(r));
    }
    if let Some(r) = digit_words::of_word(verb, kinds, values, lent)? {
        return Ok(Some(r));
    }
    if let Some(r) = digit_words::of_words(verb, kinds, values)? {
        return Ok(Some(r));
    }
    exponents::of_exponents(verb, kinds, values, lent)
}
