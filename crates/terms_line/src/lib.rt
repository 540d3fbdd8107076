// The lines of document 01's program, taken apart.
#![tactic(auto)]

ghost use Rattle.terms_line.specs.Line.{Parses, Answers};

use words::Family;

// What a line asks for: the words of k symbols below n.
#[derive(Clone, Copy)]
pub struct Words {
    pub family: Family,
    pub n: u64,
    pub k: u64,
}

// A line is `forbidden` or `allowed`, one space, n, one space, k, and nothing else.
fn parse(line: &[u8]) -> Option<Words>
    ensures { Parses line.now result }
{
    let a = text::find(line, 0, b' ');
    if a == line.len() {
        return None;
    }
    let b = text::find(line, a + 1, b' ');
    if b == line.len() {
        return None;
    }
    let family = text::family(&line[0..a])?;
    let n = text::read_number(&line[a + 1..b])?;
    let k = text::read_number(&line[b + 1..])?;
    Some(Words { family, n, k })
}

// What the first line of an input asks for, of which the first bytes are held: all of it, or up to a newline at least, or more bytes than
// a good line has.
pub fn first(held: &[u8]) -> Option<Words>
    ensures { Answers held.now result }
{
    let end = text::find(held, 0, b'\n');
    parse(&held[0..end])
}
