// The requests on an image by a reader record (document 02, §1), whose place is the first word and whose image the second.
use replies::{Answered, Reply};

pub(crate) fn of_record(
    verb: &[u8],
    line: &[u8],
    from: usize,
    bytes: &mut [u8],
    places: &mut [u64],
) -> Answered {
    let place = fields::number(line, from, 0);
    if fields::asks(verb, b"recordcheck", line, from, b"nB") {
        let n = fields::bytes(line, from, 1, bytes);
        return Ok(Some(Reply::Number(image_reader::check_at(&bytes[0..n], place)?)));
    }
    if fields::asks(verb, b"recordrow", line, from, b"nBFn") {
        let n = fields::bytes(line, from, 1, bytes);
        let f = fields::family(line, from, 2);
        let k = fields::number(line, from, 3);
        return crate::give(image_reader::row_at(&bytes[0..n], place, f, k)?, places);
    }
    if fields::asks(verb, b"recordlookup", line, from, b"nBFnn") {
        let n = fields::bytes(line, from, 1, bytes);
        let x = crate::index(line, from, 2, 3, 4);
        return Ok(Some(Reply::Number(image_reader::lookup_at_place(&bytes[0..n], place, x)?)));
    }
    Ok(None)
}
