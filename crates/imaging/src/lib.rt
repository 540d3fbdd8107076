// The program `image` (docs/RULES.md, section 17): checks an image, makes one, and looks a term up, over the calls of the library. What is good goes
// to standard output, and the status is 0 when all of it is written; what is wrong goes to standard error alone, and the status is 1.
#![tactic(auto)]

ghost use Rattle.std.specs.Prelude.{◌≡◌, ◌≤◌, ◌<◌, length};

use answers::{Index, Refusal};
use image_description::{Fault, Making};
use image_text::Place;
use pieces::{Pieces, Verdict};
use std::env::{Env, FillError};
use std::io;
use std::process::ExitCode;
use words::Family;

// A text in the first places of a lent buffer, and whether it is of something good.
#[derive(Clone, Copy)]
pub struct Told {
    pub good: bool,
    pub end: usize,
}

fn bad(end: usize) -> Told {
    Told { good: false, end }
}

// ---- check

// What is told of an image whose pieces have ended.
pub fn put_verdict(out: &mut [u8], p: Pieces) -> Told {
    let verdict = p.verdict;
    let list = p.bytes;
    match verdict {
        Verdict::Good(_) => Told {
            good: true,
            end: image_text::put_contents(out, 0, &list, p.seen),
        },
        Verdict::Bad(at) => bad(put_bad(out, 0, &list, p.seen, at)),
        Verdict::Open => bad(put_bad(out, 0, &list, p.seen, p.seen)),
    }
}

// The line of a bad image: the byte, and what is wrong there.
fn put_bad(out: &mut [u8], at: usize, list: &[u8], size: u64, offset: u64) -> usize {
    let at = text::put(out, at, b"byte ");
    let at = text::put_number(out, at, offset);
    let at = text::put(out, at, b": ");
    let at = image_text::put_fault(out, at, list, size, offset);
    text::put_byte(out, at, b'\n')
}

// The state after what is read next, which is a piece or the end, and whether that was a piece.
#[derive(Clone, Copy)]
struct Fed {
    state: Pieces,
    more: bool,
}

fn feed_some(rt: &impl Input, p: Pieces, block: &mut [u8]) -> io::Result<Fed> {
    let n = streams::read_some(rt, block)?;
    if n == 0 {
        let state = pieces::end(p);
        return Ok(Fed { state, more: false });
    }
    let state = pieces::feed(p, &block[0..n]);
    Ok(Fed { state, more: true })
}

// The state after all of the input. Nothing says that an input ends, so the pieces are counted up to a number that no run reaches.
fn judged(rt: &impl Input, block: &mut [u8]) -> io::Result<Pieces> {
    let mut p = pieces::start();
    for _ in 0..u64::MAX {
        let fed = feed_some(rt, p, block)?;
        let state = fed.state;
        if !fed.more {
            return Ok(state);
        }
        p = state;
    }
    Ok(p)
}

fn check_input(rt: &impl Input, out: &mut [u8]) -> io::Result<Told> {
    let mut block = [0u8; 4096];
    let p = judged(rt, &mut block)?;
    Ok(put_verdict(out, p))
}

// ---- make

// Takes the lines of a description in, up to the first in which something is wrong.
fn take_lines(
    description: &[u8],
    contents: &mut [u8],
    bodies: &mut [u8],
    before: &mut [u64; 64],
    lines: &mut [u64; 64],
) -> Result<Making, Fault> {
    let mut m = image_description::start();
    let mut at = 0;
    // The loop goes from line to line by where each one ends: what a split gives is one line more after the last newline.
    while at < description.len() {
        let end = text::find(description, at, b'\n');
        m = image_description::take_line(
            &description[at..end],
            m,
            contents,
            bodies,
            before,
            lines,
        )?;
        at = end;
        if at < description.len() {
            at += 1;
        }
    }
    Ok(m)
}

// The line of a description in which the table of an offset begins, or 0.
fn line_of(m: Making, lines: &[u64; 64], offset: u64) -> u64 {
    if m.tables > 64 {
        return 0;
    }
    match image_text::place_of(m.tables, offset) {
        Place::Row(i, _) => {
            if i < 64 {
                return lines[i as usize];
            }
            0
        }
        Place::Number => 0,
        Place::Behind => 0,
    }
}

// What is wrong with the tables of a description, which would make an image that is refused at an offset.
fn put_refused(
    out: &mut [u8],
    contents: &[u8],
    m: Making,
    lines: &[u64; 64],
    offset: u64,
) -> usize {
    let line = line_of(m, lines, offset);
    if line == 0 {
        let at = image_text::put_fault(out, 0, contents, u64::MAX, offset);
        return text::put_byte(out, at, b'\n');
    }
    let at = text::put(out, 0, b"line ");
    let at = text::put_number(out, at, line);
    let at = text::put(out, at, b": ");
    let at = image_text::put_fault(out, at, contents, u64::MAX, offset);
    text::put_byte(out, at, b'\n')
}

// The image of a description that was taken in: written by the library, which judges it, or what is wrong.
fn write(out: &mut [u8], m: Making, contents: &[u8], bodies: &[u8], lines: &[u64; 64]) -> Told {
    match image_writing::write(contents, bodies, out) {
        Ok(n) => Told {
            good: true,
            end: n as usize,
        },
        Err(Refusal::Shape) => bad(text::put(out, 0, b"the image would pass 65536 bytes\n")),
        Err(e) => bad(put_refused(out, contents, m, lines, answers::place(e))),
    }
}

// The same of the parts of the two buffers that the description fills.
fn write_made(
    out: &mut [u8],
    m: Making,
    contents: &[u8],
    bodies: &[u8],
    lines: &[u64; 64],
) -> Told {
    let t = m.tables;
    let e = m.entries;
    if t > 64 {
        return bad(0);
    }
    if e > 8192 {
        return bad(0);
    }
    let c = (4 + 12 * t) as usize;
    let d = (8 * e) as usize;
    if c > contents.len() {
        return bad(0);
    }
    if d > bodies.len() {
        return bad(0);
    }
    write(out, m, &contents[0..c], &bodies[0..d], lines)
}

// The line of a description in which something is wrong.
fn put_fault(out: &mut [u8], fault: Fault) -> usize {
    let at = image_description::put_fault(out, 0, fault);
    text::put_byte(out, at, b'\n')
}

// The image that a description asks for, or what is wrong with it.
pub fn put_made(out: &mut [u8], description: &[u8]) -> Told {
    let mut contents = [0u8; 772];
    let mut bodies = [0u8; 65536];
    let mut before = [0u64; 64];
    let mut lines = [0u64; 64];
    let made = take_lines(
        description,
        &mut contents,
        &mut bodies,
        &mut before,
        &mut lines,
    );
    match made {
        Ok(m) => {
            image_description::close(m, &mut contents, &before);
            write_made(out, m, &contents, &bodies, &lines)
        }
        Err(fault) => bad(put_fault(out, fault)),
    }
}

// 262,144 zeros: more than the longest image takes as text.
fn description_buffer() -> [u8; 262144]
    ensures { 262144 ≡ length result }
{
    [0; 262144]
}

fn make_from_input(rt: &impl Input, out: &mut [u8]) -> io::Result<Told> {
    let mut description = description_buffer();
    let n = streams::read_full(rt, &mut description)?;
    if n >= 262144 {
        return Ok(bad(text::put(out, 0, b"a description has at most 262143 bytes\n")));
    }
    Ok(put_made(out, &description[..n]))
}

// ---- term

// A coefficient: in decimal, and its bits.
fn put_coefficient(out: &mut [u8], c: u64) -> usize {
    let at = text::put_number(out, 0, c);
    let at = text::put(out, at, b" 0x");
    let at = spelling::put_bytes(out, at, &c.to_be_bytes());
    text::put_byte(out, at, b'\n')
}

// Why a term is not there.
fn put_missing(out: &mut [u8], image: &[u8], e: Refusal) -> usize {
    match e {
        Refusal::NoSuchRank => text::put(
            out,
            0,
            b"the term uses a symbol that the table does not have\n",
        ),
        Refusal::BadImage(at) => put_bad(out, 0, image, image.len() as u64, at),
        Refusal::NoSuchTable => text::put(
            out,
            0,
            b"the image has no table of this family and degree\n",
        ),
        _ => {
            let at = text::put(out, 0, b"refused ");
            let at = text::put_number(out, at, answers::number(e));
            text::put_byte(out, at, b'\n')
        }
    }
}

// The coefficient of a term in an image, or why there is none.
fn put_looked_up(out: &mut [u8], image: &[u8], x: Index) -> Told {
    match image_lookup::lookup(image, x) {
        Ok(c) => Told {
            good: true,
            end: put_coefficient(out, c),
        },
        Err(e) => bad(put_missing(out, image, e)),
    }
}

// The largest alphabet that a term of k symbols may have.
fn widest(f: Family, k: u64) -> u64 {
    match f {
        Family::Forbidden => 64,
        Family::Allowed => {
            if k == 0 {
                return 64;
            }
            if k > 64 {
                return 1;
            }
            65 - k
        }
    }
}

// Why a word is no term.
fn put_no_term(out: &mut [u8], e: Refusal) -> usize {
    match e {
        Refusal::NotMonotone(i) => {
            let at = text::put(out, 0, b"symbol number ");
            let at = text::put_number(out, at, i);
            text::put(
                out,
                at,
                b" of the term, counted from 0, may not stand after its neighbour\n",
            )
        }
        _ => text::put(
            out,
            0,
            b"the term has too many symbols, or one that is too large\n",
        ),
    }
}

// The coefficient of a term, given by its symbols.
pub fn put_term(out: &mut [u8], f: Family, word: &[u64], image: &[u8]) -> Told {
    match monotone::pack(f, widest(f, word.len() as u64), word) {
        Ok(x) => put_looked_up(out, image, x),
        Err(e) => bad(put_no_term(out, e)),
    }
}

// The coefficient of the term of the first n symbols.
fn put_first(out: &mut [u8], f: Family, word: &[u64], n: usize, image: &[u8]) -> Told {
    if n > word.len() {
        return bad(text::put(out, 0, b"a term has at most 64 symbols\n"));
    }
    put_term(out, f, &word[0..n], image)
}

// Argument i of the program, into a lent buffer: how many bytes it has, and 0 where it is missing or longer than the buffer.
fn argument(rt: &impl Env, i: usize, buffer: &mut [u8]) -> usize
    ensures { result ≤ length buffer.new }
{
    match rt.arg(i, buffer) {
        Ok(n) => n,
        Err(_) => 0,
    }
}

// How many arguments there are, the program's name among them.
fn argument_count(rt: &impl Env) -> usize {
    let mut start = [0u8; 1];
    for i in 0..usize::MAX {
        if let Err(FillError::NotPresent) = rt.arg(i, &mut start) {
            return i;
        }
    }
    usize::MAX
}

// The number that argument i of the program writes.
fn number(rt: &impl Env, i: usize) -> Option<u64> {
    let mut word = [0u8; 4096];
    let n = argument(rt, i, &mut word);
    text::read_number(&word[..n])
}

// The family that argument i names.
fn family(rt: &impl Env, i: usize) -> Option<Family> {
    let mut word = [0u8; 4096];
    let n = argument(rt, i, &mut word);
    text::family(&word[..n])
}

// The i-th symbol of a term, which is argument 3 + i: whether it is a number.
fn take_symbol(rt: &impl Env, word: &mut [u64], i: usize) -> bool
    requires { i < 64 }
{
    if i >= word.len() {
        return false;
    }
    match number(rt, 3 + i) {
        Some(s) => {
            word[i] = s;
            true
        }
        None => false,
    }
}

// The symbols of a term, of which there are n: whether all are numbers.
fn symbols(rt: &impl Env, word: &mut [u64], n: usize) -> bool
    requires { n ≤ 64 }
{
    for i in 0..n {
        if !take_symbol(rt, word, i) {
            return false;
        }
    }
    true
}

fn look_up(rt: &(impl Input + Env), out: &mut [u8], arguments: usize) -> io::Result<Told> {
    if arguments < 3 {
        return Ok(usage(out));
    }
    let n = arguments - 3;
    let Some(f) = family(rt, 2) else {
        return Ok(usage(out));
    };
    if n > 64 {
        return Ok(bad(text::put(out, 0, b"a term has at most 64 symbols\n")));
    }
    let mut word = [0u64; 64];
    if !symbols(rt, &mut word, n) {
        return Ok(bad(text::put(out, 0, b"a symbol is a number below 2^64\n")));
    }
    let mut image = [0u8; 65537];
    let size = streams::read_full(rt, &mut image)?;
    Ok(put_first(out, f, &word, n, &image[..size]))
}

// ---- the program

fn usage(out: &mut [u8]) -> Told {
    bad(text::put(
        out,
        0,
        b"image: say check, make, or term FAMILY SYMBOL..; ./image --help says more\n",
    ))
}

// Does what the arguments ask for, of which there are so many, the program's name among them.
fn answer(rt: &(impl Input + Env), out: &mut [u8], arguments: usize) -> io::Result<Told> {
    let mut word = [0u8; 4096];
    let n = argument(rt, 1, &mut word);
    if check::same(&word[..n], b"term") {
        return look_up(rt, out, arguments);
    }
    if arguments != 2 {
        return Ok(usage(out));
    }
    if check::same(&word[..n], b"check") {
        return check_input(rt, out);
    }
    if check::same(&word[..n], b"make") {
        return make_from_input(rt, out);
    }
    Ok(usage(out))
}

// Writes what is told, on standard output or on the stream for what is wrong, and answers the status that says which.
fn tell(rt: &impl Print, errors: &impl Print, out: &[u8], told: Told) -> io::Result<ExitCode> {
    let end = told.end;
    if end > out.len() {
        return Ok(ExitCode::FAILURE);
    }
    if !told.good {
        errors.write_all(&out[0..end])?;
        return Ok(ExitCode::FAILURE);
    }
    rt.write_all(&out[0..end])?;
    Ok(ExitCode::SUCCESS)
}

// The program, whole: answers its status. What is wrong is written as bytes, so the stream for it is given by itself.
pub fn run(rt: &(impl Input + Print + Env), errors: &impl Print) -> io::Result<ExitCode> {
    let mut out = [0u8; 65536];
    let told = answer(rt, &mut out, argument_count(rt))?;
    tell(rt, errors, &out, told)
}
