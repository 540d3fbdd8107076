// The program `oldtable` (docs/RULES.md, section 20): the text of a table taken apart, its body converted, and the text of the other table written. Its first line says
// what the old order cannot do.
#![tactic(auto)]

use answers::Refusal;
use std::io;
use words::Family;

// What a header asks for: whether the way is back to the old order, the family, the number of symbols and the degree.
#[derive(Clone, Copy)]
struct Header {
    back: bool,
    family: Family,
    n: u64,
    k: u64,
}

// Why the entries are not all taken: one is wrong, or missing, counted from 0.
#[derive(Clone, Copy)]
enum Fault {
    Wrong(u64),
    Short(u64),
}

// A header is a direction, a family, n and k, with single spaces between them.
fn parse(line: &[u8]) -> Option<Header> {
    let a = text::find(line, 0, b' ');
    if a == line.len() {
        return None;
    }
    let b = text::find(line, a + 1, b' ');
    if b == line.len() {
        return None;
    }
    let back = check::same(&line[0..a], b"new-to-old");
    if !back {
        if !check::same(&line[0..a], b"old-to-new") {
            return None;
        }
    }
    let family = text::family(&line[a + 1..b])?;
    sized(&line[b + 1..], back, family)
}

// The rest of a header: n and k.
fn sized(line: &[u8], back: bool, family: Family) -> Option<Header> {
    let a = text::find(line, 0, b' ');
    if a == line.len() {
        return None;
    }
    let n = text::read_number(&line[0..a])?;
    let k = text::read_number(&line[a + 1..])?;
    Some(Header { back, family, n, k })
}

// Puts the entry that a line writes into place r of a body. Says whether it is one.
fn take_entry(line: &[u8], body: &mut [u8], r: u64) -> bool {
    if line.len() != 16 {
        return false;
    }
    if !spelling::is_bytes(line) {
        return false;
    }
    if r >= 8192 {
        return false;
    }
    if body.len() < 65536 {
        return false;
    }
    let at = (8 * r) as usize;
    let end = at + 8;
    spelling::bytes(line, &mut body[at..end]);
    true
}

// Takes so many entries, a line each, from a place of the text on: the place at which the text goes on.
fn take_entries(held: &[u8], from: usize, count: u64, body: &mut [u8]) -> Result<usize, Fault> {
    let mut at = from;
    for r in 0..count {
        if held.len() <= at {
            return Err(Fault::Short(r));
        }
        let end = text::find(held, at, b'\n');
        if !take_entry(&held[at..end], body, r) {
            return Err(Fault::Wrong(r));
        }
        at = end + 1;
    }
    Ok(at)
}

// A fault, with the line where it is.
fn put_fault(out: &mut [u8], at: usize, line: u64, what: &[u8]) -> usize {
    let at = text::put(out, at, b"line ");
    let at = text::put_number(out, at, line);
    let at = text::put(out, at, b": ");
    let at = text::put(out, at, what);
    text::put_byte(out, at, b'\n')
}

// The same of entry r, which stands on line r + 2.
fn put_fault_of(out: &mut [u8], at: usize, r: u64, what: &[u8]) -> usize {
    if r >= 65536 {
        return at;
    }
    put_fault(out, at, r + 2, what)
}

fn put_refusal(out: &mut [u8], at: usize, e: Refusal) -> usize {
    let at = text::put(out, at, b"line 1: refused ");
    let at = text::put_number(out, at, answers::number(e));
    text::put_byte(out, at, b'\n')
}

fn put_family(out: &mut [u8], at: usize, f: Family) -> usize {
    match f {
        Family::Forbidden => text::put(out, at, b" forbidden "),
        Family::Allowed => text::put(out, at, b" allowed "),
    }
}

fn put_direction(out: &mut [u8], at: usize, back: bool) -> usize {
    if back {
        return text::put(out, at, b"new-to-old");
    }
    text::put(out, at, b"old-to-new")
}

// The header of the way back.
fn put_header(out: &mut [u8], at: usize, h: Header) -> usize {
    let family = h.family;
    let at = put_direction(out, at, !h.back);
    let at = put_family(out, at, family);
    let at = text::put_number(out, at, h.n);
    let at = text::put_byte(out, at, b' ');
    let at = text::put_number(out, at, h.k);
    text::put_byte(out, at, b'\n')
}

// The line of entry r of a body.
fn put_entry(rt: &impl Print, out: &mut [u8], at: usize, body: &[u8], r: u64) -> io::Result<usize> {
    if r >= 8192 {
        return Ok(at);
    }
    if body.len() < 65536 {
        return Ok(at);
    }
    let from = (8 * r) as usize;
    let end = from + 8;
    let at = streams::with_room(rt, out, at, 32)?;
    let at = spelling::put_bytes(out, at, &body[from..end]);
    Ok(text::put_byte(out, at, b'\n'))
}

fn put_entries(
    rt: &impl Print,
    out: &mut [u8],
    at: usize,
    body: &[u8],
    count: u64,
) -> io::Result<usize> {
    let mut to = at;
    for r in 0..count {
        to = put_entry(rt, out, to, body, r)?;
    }
    Ok(to)
}

// The table of a body of so many entries, converted into a lent other body.
fn put_converted(
    rt: &impl Print,
    out: &mut [u8],
    at: usize,
    h: Header,
    body: &[u8],
    other: &mut [u8],
    count: u64,
) -> io::Result<usize> {
    if count > 8192 {
        return Ok(at);
    }
    if body.len() < 65536 {
        return Ok(at);
    }
    if other.len() < 65536 {
        return Ok(at);
    }
    let family = h.family;
    let end = (8 * count) as usize;
    let a = conversion::convert(h.back, family, h.n, h.k, &body[0..end], &mut other[0..end]);
    if let Err(e) = a {
        return Ok(put_refusal(out, at, e));
    }
    let at = put_header(out, at, h);
    put_entries(rt, out, at, other, count)
}

// The table whose entries stand from a place of the text on, taken into a lent body, or what is wrong with them.
fn put_body(
    rt: &impl Print,
    out: &mut [u8],
    at: usize,
    h: Header,
    held: &[u8],
    from: usize,
    body: &mut [u8],
    count: u64,
) -> io::Result<usize> {
    match take_entries(held, from, count, body) {
        Err(Fault::Wrong(r)) => Ok(put_fault_of(out, at, r, b"an entry is sixteen hex digits")),
        Err(Fault::Short(r)) => Ok(put_fault_of(
            out,
            at,
            r,
            b"the table ends before its last entry",
        )),
        Ok(end) => {
            if end < held.len() {
                let at = put_fault_of(out, at, count, b"the table goes on after its last entry");
                return Ok(at);
            }
            let mut other = [0u8; 65536];
            put_converted(rt, out, at, h, body, &mut other, count)
        }
    }
}

// What a header asks for, with the text in which the entries stand from a place on.
fn put_table(
    rt: &impl Print,
    out: &mut [u8],
    at: usize,
    h: Header,
    held: &[u8],
    from: usize,
) -> io::Result<usize> {
    let family = h.family;
    match monotone_count::count(family, h.n, h.k) {
        Err(e) => Ok(put_refusal(out, at, e)),
        Ok(count) => {
            if count > 8192 {
                return Ok(put_fault(out, at, 1, b"more than 8192 entries"));
            }
            let mut body = [0u8; 65536];
            put_body(rt, out, at, h, held, from, &mut body, count)
        }
    }
}

fn put_answer(rt: &impl Print, out: &mut [u8], at: usize, held: &[u8]) -> io::Result<usize> {
    let end = text::find(held, 0, b'\n');
    match parse(&held[0..end]) {
        None => Ok(put_fault(out, at, 1, b"the header is DIRECTION FAMILY N K")),
        Some(h) => put_table(rt, out, at, h, held, end + 1),
    }
}

// Writes to standard output what the program answers to an input, of which all is held, or more bytes than a good one has.
fn answer(rt: &impl Print, held: &[u8]) -> io::Result<()> {
    let mut out = [0u8; 4096];
    let at = text::put(
        &mut out,
        0,
        b"in the old order widening the alphabet renumbers terms\n",
    );
    let at = put_answer(rt, &mut out, at, held)?;
    streams::flush(rt, &out, at)
}

// The program, whole. A good input has at most 139,327 bytes: a header of 63 and 8,192 lines of 17.
pub fn run(rt: &(impl Input + Print)) -> io::Result<()> {
    let mut buffer = [0u8; 140000];
    let n = streams::read_full(rt, &mut buffer)?;
    answer(rt, &buffer[0..n])
}
