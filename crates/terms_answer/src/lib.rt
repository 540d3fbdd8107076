// What document 01's program writes for one line: the header, and the words of a family in their order.
#![tactic(auto)]

use answers::{Index, Refusal};
use monotone_walk::Walk;
use std::io;
use words::Family;

fn put_refusal(out: &mut [u8], at: usize, e: Refusal) -> usize {
    let at = text::put(out, at, b"refused ");
    let at = text::put_number(out, at, answers::number(e));
    text::put_byte(out, at, b'\n')
}

fn put_family(out: &mut [u8], at: usize, f: Family) -> usize {
    match f {
        Family::Forbidden => text::put(out, at, b"forbidden"),
        Family::Allowed => text::put(out, at, b"allowed"),
    }
}

// The header: what was asked, and how many words there are.
fn put_header(out: &mut [u8], at: usize, f: Family, n: u64, k: u64, count: u64) -> usize {
    let at = put_family(out, at, f);
    let at = text::put_byte(out, at, b' ');
    let at = text::put_number(out, at, n);
    let at = text::put_byte(out, at, b' ');
    let at = text::put_number(out, at, k);
    let at = text::put_byte(out, at, b' ');
    let at = text::put_number(out, at, count);
    text::put_byte(out, at, b'\n')
}

// The first k symbols of a word, each after a space.
pub fn put_symbols(out: &mut [u8], at: usize, word: &[u64], k: u64) -> usize {
    let mut to = at;
    for (i, s) in word.iter().enumerate() {
        if i as u64 == k {
            return to;
        }
        to = text::put_byte(out, to, b' ');
        to = text::put_number(out, to, *s);
    }
    to
}

// The line of one word: its rank, a colon, and its symbols. One of 64 symbols takes fewer than 512 bytes.
fn put_word(rt: &impl Print, out: &mut [u8], at: usize, r: u64, x: Index) -> io::Result<usize> {
    let mut word = [0u64; 64];
    let Ok(k) = monotone::unpack(x, &mut word) else {
        return Ok(at);
    };
    let at = streams::with_room(rt, out, at, 512)?;
    let at = text::put_number(out, at, r);
    let at = text::put_byte(out, at, b':');
    let at = put_symbols(out, at, &word, k);
    Ok(text::put_byte(out, at, b'\n'))
}

// A line for each step of the walk, of which there are `count`.
fn put_words(
    rt: &impl Print,
    out: &mut [u8],
    at: usize,
    walk: Walk,
    count: u64,
) -> io::Result<usize> {
    let mut to = at;
    let mut w = walk;
    for r in 0..count {
        let Ok(moved) = monotone_walk::step(w) else {
            return Ok(to);
        };
        to = put_word(rt, out, to, r, moved.index)?;
        w = moved.state;
    }
    Ok(to)
}

// The words of a family, if there are 4,096 or fewer, after the header.
fn put_terms(rt: &impl Print, out: &mut [u8], f: Family, n: u64, k: u64) -> io::Result<usize> {
    let count = match monotone_count::count(f, n, k) {
        Ok(count) => count,
        Err(e) => {
            return Ok(put_refusal(out, 0, e));
        }
    };
    let at = put_header(out, 0, f, n, k, count);
    if count > 4096 {
        return Ok(at);
    }
    let Ok(w) = monotone_count::start(f, n, k) else {
        return Ok(at);
    };
    put_words(rt, out, at, w, count)
}

fn put_answer(rt: &impl Print, out: &mut [u8], held: &[u8]) -> io::Result<usize> {
    match terms_line::first(held) {
        Some(asked) => put_terms(rt, out, asked.family, asked.n, asked.k),
        None => Ok(text::put(out, 0, b"bad line\n")),
    }
}

// Writes to standard output what the program answers to the first line of an input, of which the first bytes are held.
pub fn answer(rt: &impl Print, held: &[u8]) -> io::Result<()> {
    let mut out = [0u8; 4096];
    let at = put_answer(rt, &mut out, held)?;
    streams::flush(rt, &out, at)
}
