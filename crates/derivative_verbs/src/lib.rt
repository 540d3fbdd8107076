// The request for a derivative (docs/RULES.md, section 13), answered by the call of the library: derive n k s / c.., where c are signed numbers.
#![tactic(auto)]

use replies::{Answered, Reply};

// The derivative of the first c coefficients of a table; there are no more than it has places.
fn derived(n: u64, k: u64, s: u64, table: &[i64], c: usize, lent: &mut [i64]) -> Answered {
    if table.len() < c {
        return Ok(None);
    }
    Ok(Some(Reply::Entries(derivative::derivative(n, k, s, &table[0..c], lent)?)))
}

// The answer, with the coefficients held in a table of the caller's; none if the verb is another one, or its words are not these.
pub fn reply(
    verb: &[u8],
    line: &[u8],
    from: usize,
    table: &mut [i64],
    lent: &mut [i64],
) -> Answered {
    if !fields::begins(verb, b"derive", line, from, b"nnn/") {
        return Ok(None);
    }
    let n = fields::number(line, from, 0);
    let k = fields::number(line, from, 1);
    let s = fields::number(line, from, 2);
    match fields::signed(line, from, 4, table) {
        Some(c) => derived(n, k, s, table, c, lent),
        None => Ok(None),
    }
}
