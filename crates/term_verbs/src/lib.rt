// The requests on terms and on sets (docs/RULES.md, section 13), each answered by a call of the library.
#![tactic(auto)]

mod sets; // sets.rt: insert, contains, position, select
mod signed; // signed.rt: canonical, merge, delete, complement, stabilizer
mod terms; // terms.rt: count, walk, rank, unrank, pack, unpack, next, step, symbol, degree

use replies::Answered;

// The answer by the group that knows the verb; none if no group does.
pub fn reply(verb: &[u8], kinds: &[u8], values: &[u64], lent: &mut [u64]) -> Answered {
    if let Some(r) = terms::over(verb, kinds, values, lent)? {
        return Ok(Some(r));
    }
    if let Some(r) = terms::of_walk(verb, kinds, values)? {
        return Ok(Some(r));
    }
    if let Some(r) = terms::of_word(verb, kinds, values)? {
        return Ok(Some(r));
    }
    if let Some(r) = terms::of_index(verb, kinds, values, lent)? {
        return Ok(Some(r));
    }
    if let Some(r) = signed::products(verb, kinds, values)? {
        return Ok(Some(r));
    }
    if let Some(r) = signed::of_index(verb, kinds, values)? {
        return Ok(Some(r));
    }
    sets::of_set(verb, kinds, values)
}
