// The requests on images (docs/RULES.md, section 13; document 02, §1 and §13), each answered by a call of the library. The bytes of a word are
// read into a buffer that the caller lends, and those that a call writes go into another.
#![tactic(auto)]

mod images; // images.rt: imagecheck, imagerow, imagelookup, imagewrite
mod records; // records.rt: recordcheck, recordrow, recordlookup
mod uplinks; // uplinks.rt: pieces

use answers::Index;
use image_reading::Table;
use replies::{Answered, Reply};

// The index whose family, alphabet and bits are the words at the three places.
fn index(line: &[u8], from: usize, f: usize, n: usize, b: usize) -> Index {
    Index {
        family: fields::family(line, from, f),
        alphabet: fields::number(line, from, n),
        bits: fields::number(line, from, b),
    }
}

// The reply that gives a row of the contents: its numbers are written into the first places.
fn give(row: Table, places: &mut [u64]) -> Answered {
    if places.len() < 3 {
        return Ok(None);
    }
    places[0] = row.alphabet;
    places[1] = row.offset;
    places[2] = row.entries;
    Ok(Some(Reply::Places(3)))
}

// The answer by the group that knows the verb; none if no group does. The words after the verb begin at place `from` of the line.
pub fn reply(
    verb: &[u8],
    line: &[u8],
    from: usize,
    bytes: &mut [u8],
    lent: &mut [u8],
    places: &mut [u64],
) -> Answered {
    if let Some(r) = images::of_image(verb, line, from, bytes, places)? {
        return Ok(Some(r));
    }
    if let Some(r) = images::of_parts(verb, line, from, bytes, lent)? {
        return Ok(Some(r));
    }
    if let Some(r) = records::of_record(verb, line, from, bytes, places)? {
        return Ok(Some(r));
    }
    uplinks::of_pieces(verb, line, from, bytes)
}
