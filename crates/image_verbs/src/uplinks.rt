// The request on an image in pieces (document 02, §13): each word is bytes, one piece, or `end`, which announces the end.
use answers::Refusal;
use pieces::{Pieces, Verdict};
use replies::{Answered, Refused, Reply};

// Whether a text is one of the two.
fn is_piece(text: &[u8]) -> bool {
    if check::same(text, b"end") {
        return true;
    }
    spelling::is_bytes(text)
}

// The state after what a text says.
fn after(p: Pieces, text: &[u8], bytes: &mut [u8]) -> Pieces {
    if check::same(text, b"end") {
        return pieces::end(p);
    }
    let n = spelling::bytes(text, bytes);
    pieces::feed(p, &bytes[0..n])
}

fn verdict(v: Verdict) -> Answered {
    match v {
        Verdict::Open => Ok(Some(Reply::Open)),
        Verdict::Good(tables) => Ok(Some(Reply::Number(tables))),
        Verdict::Bad(at) => Err(Refused::Plain(Refusal::BadImage(at))),
    }
}

// The verdict after the last of the texts from place `from` on.
fn told(line: &[u8], from: usize, bytes: &mut [u8]) -> Answered {
    let mut p = pieces::start();
    let mut at = from;
    // The loop goes from word to word by where each one ends, and counts no index.
    while at <= line.len() {
        let end = text::find(line, at, b' ');
        if !is_piece(&line[at..end]) {
            return Ok(None);
        }
        p = after(p, &line[at..end], bytes);
        at = end + 1;
    }
    let v = p.verdict;
    verdict(v)
}

// There is at least one text.
pub(crate) fn of_pieces(verb: &[u8], line: &[u8], from: usize, bytes: &mut [u8]) -> Answered {
    if !check::same(verb, b"pieces") {
        return Ok(None);
    }
    if from > line.len() {
        return Ok(None);
    }
    told(line, from, bytes)
}
