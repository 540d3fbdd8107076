// The requests on an image (document 02, §1).
use replies::{Answered, Reply};

// The requests on one image.
pub(crate) fn of_image(
    verb: &[u8],
    line: &[u8],
    from: usize,
    bytes: &mut [u8],
    places: &mut [u64],
) -> Answered {
    if fields::asks(verb, b"imagecheck", line, from, b"B") {
        let n = fields::bytes(line, from, 0, bytes);
        return Ok(Some(Reply::Number(image_check::check(&bytes[0..n])?)));
    }
    if fields::asks(verb, b"imagerow", line, from, b"BFn") {
        let n = fields::bytes(line, from, 0, bytes);
        let f = fields::family(line, from, 1);
        let k = fields::number(line, from, 2);
        return crate::give(image_reading::row(&bytes[0..n], f, k)?, places);
    }
    if fields::asks(verb, b"imagelookup", line, from, b"BFnn") {
        let n = fields::bytes(line, from, 0, bytes);
        let x = crate::index(line, from, 1, 2, 3);
        return Ok(Some(Reply::Number(image_lookup::lookup(&bytes[0..n], x)?)));
    }
    Ok(None)
}

// The image of contents, which are the first n bytes, and bodies, which are the next m.
fn joined(bytes: &[u8], n: usize, m: usize, lent: &mut [u8]) -> Answered {
    if n > bytes.len() {
        return Ok(None);
    }
    if m > bytes.len() - n {
        return Ok(None);
    }
    let end = n + m;
    Ok(Some(Reply::Bytes(image_writing::write(&bytes[0..n], &bytes[n..end], lent)?)))
}

// The same, where the bodies are still to be read.
fn write(line: &[u8], from: usize, bytes: &mut [u8], n: usize, lent: &mut [u8]) -> Answered {
    if n > bytes.len() {
        return Ok(None);
    }
    let m = fields::bytes(line, from, 1, &mut bytes[n..]);
    joined(bytes, n, m, lent)
}

// The request on contents and bodies, which are joined.
pub(crate) fn of_parts(
    verb: &[u8],
    line: &[u8],
    from: usize,
    bytes: &mut [u8],
    lent: &mut [u8],
) -> Answered {
    if fields::asks(verb, b"imagewrite", line, from, b"BB") {
        let n = fields::bytes(line, from, 0, bytes);
        return write(line, from, bytes, n, lent);
    }
    Ok(None)
}
