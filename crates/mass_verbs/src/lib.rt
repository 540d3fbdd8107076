// The requests on a frame (docs/RULES.md, section 13; document 02, §3), each answered by the call of the library: join A P C T and mass B A P C T, where P and T are
// floats. A word of sixteen hex digits writes eight bytes, so where a float stands the pattern has bytes, and the word is read as a float.
#![tactic(auto)]

use replies::{Answered, Reply};

// The sample of a pressure and a temperature whose words are at places 0 to 3.
fn joined(line: &[u8], from: usize) -> Answered {
    let Some(p) = float_text::read(fields::text_at(line, from, 1)) else {
        return Ok(None);
    };
    let Some(t) = float_text::read(fields::text_at(line, from, 3)) else {
        return Ok(None);
    };
    let a = fields::number(line, from, 0);
    let c = fields::number(line, from, 2);
    Ok(Some(Reply::Sample(mass::join(a, rounded::of_bits(p), c, rounded::of_bits(t))?)))
}

// The mass by a surface of a pressure and a temperature whose words are at places 1 to 4.
fn weighed(line: &[u8], from: usize, surface: &[u8]) -> Answered {
    let Some(p) = float_text::read(fields::text_at(line, from, 2)) else {
        return Ok(None);
    };
    let Some(t) = float_text::read(fields::text_at(line, from, 4)) else {
        return Ok(None);
    };
    let a = fields::number(line, from, 1);
    let c = fields::number(line, from, 3);
    Ok(Some(Reply::Mass(mass::mass(surface, a, rounded::of_bits(p), c, rounded::of_bits(t))?)))
}

// The answer, with the bytes of the surface held in a buffer of the caller's; none if the verb is another one, or its words are not these.
pub fn reply(verb: &[u8], line: &[u8], from: usize, bytes: &mut [u8]) -> Answered {
    if fields::asks(verb, b"join", line, from, b"nBnB") {
        return joined(line, from);
    }
    if fields::asks(verb, b"mass", line, from, b"BnBnB") {
        let n = fields::bytes(line, from, 0, bytes);
        return weighed(line, from, &bytes[0..n]);
    }
    Ok(None)
}
