// One request a line, one answer a line, until the end of the input (docs/RULES.md, section 13): a request is taken apart, a call of the
// library answers it, and the answer is written. The programs over it are thin.
#![tactic(auto)]

ghost use Rattle.std.specs.Prelude.{◌≤◌, length};

use replies::Answered;
use std::io;

// The answer by the group that knows the verb, of those whose calls write to a lent output; none if no group does.
fn reply_lent(verb: &[u8], kinds: &[u8], values: &[u64], lent: &mut [u64]) -> Answered {
    if let Some(r) = term_verbs::reply(verb, kinds, values, lent)? {
        return Ok(Some(r));
    }
    if let Some(r) = shape_verbs::reply(verb, kinds, values, lent)? {
        return Ok(Some(r));
    }
    if let Some(r) = wide_verbs::reply(verb, kinds, values, lent)? {
        return Ok(Some(r));
    }
    lexical_verbs::reply(verb, kinds, values, lent)
}

// How many of n places are lent: as many as are asked for, or all of them.
fn lent_of(room: u64, n: usize) -> usize
    ensures { result ≤ n }
{
    if room < n as u64 {
        return room as usize;
    }
    n
}

// The reply to a request, given the words after its verb. Permutations are given in any of the places; other calls are lent the first.
fn reply_verb(
    verb: &[u8],
    kinds: &[u8],
    values: &[u64],
    room: u64,
    places: &mut [u64],
) -> Answered {
    if let Some(r) = permutation_verbs::reply(verb, kinds, values, places)? {
        return Ok(Some(r));
    }
    let lent = lent_of(room, places.len());
    reply_lent(verb, kinds, values, &mut places[0..lent])
}

// The same of a request whose n words after the verb are taken in.
fn reply_words(
    verb: &[u8],
    n: usize,
    kinds: &[u8],
    values: &[u64],
    room: u64,
    places: &mut [u64],
) -> Answered
    requires { (n ≤ length kinds.now) × (n ≤ length values.now) }
{
    reply_verb(verb, &kinds[0..n], &values[0..n], room, places)
}

// The reply to a line whose verb stands from place `from` up to `end`, where its words say one thing each. No such request has more words
// after its verb than two lists of 80 numbers and the `/` between them.
fn reply_at(line: &[u8], room: u64, from: usize, end: usize, places: &mut [u64]) -> Answered
    requires { (from ≤ end) × (end ≤ length line.now) }
{
    let mut kinds = [0u8; 161];
    let mut values = [0u64; 161];
    match requests::words(line, end + 1, &mut kinds, &mut values) {
        Some(n) => reply_words(&line[from..end], n, &kinds, &values, room, places),
        None => Ok(None),
    }
}

// The answer by the group that knows the verb, of those with bytes among their words, which are read into a buffer; none if no group does. The words stand from
// place `at` of the line; calls are lent `written`, and `asked` says whether that much was asked for.
fn reply_written(
    verb: &[u8],
    line: &[u8],
    at: usize,
    bytes: &mut [u8],
    written: &mut [u8],
    places: &mut [u64],
    asked: bool,
) -> Answered {
    if let Some(r) = image_verbs::reply(verb, line, at, bytes, written, places)? {
        return Ok(Some(r));
    }
    if let Some(r) = mass_verbs::reply(verb, line, at, bytes)? {
        return Ok(Some(r));
    }
    lexical_verbs::converted(verb, line, at, bytes, written, asked)
}

// The reply to a line with bytes, which are read into a buffer that holds those of every line. Calls are lent the first of `written`; a room was
// asked for where the verb is not the first word.
fn reply_bytes(
    line: &[u8],
    room: u64,
    from: usize,
    end: usize,
    bytes: &mut [u8],
    written: &mut [u8],
    places: &mut [u64],
) -> Answered
    requires { (from ≤ end) × (end ≤ length line.now) }
{
    let lent = lent_of(room, written.len());
    reply_written(
        &line[from..end],
        line,
        end + 1,
        bytes,
        &mut written[0..lent],
        places,
        from > 0,
    )
}

// The reply to a line with signed numbers, which are read into a table. Calls are lent the first of `entries`.
fn reply_signed(
    line: &[u8],
    room: u64,
    from: usize,
    end: usize,
    table: &mut [i64],
    entries: &mut [i64],
) -> Answered
    requires { (from ≤ end) × (end ≤ length line.now) }
{
    let lent = lent_of(room, entries.len());
    derivative_verbs::reply(
        &line[from..end],
        line,
        end + 1,
        table,
        &mut entries[0..lent],
    )
}

// The reply to a line whose verb stands from place `from` up to `end`, by the words that it may have: one thing each, bytes, or signed numbers.
fn reply_line(
    line: &[u8],
    room: u64,
    from: usize,
    end: usize,
    bytes: &mut [u8],
    written: &mut [u8],
    places: &mut [u64],
    entries: &mut [i64],
) -> Answered
    requires { (from ≤ end) × (end ≤ length line.now) }
{
    if let Some(r) = reply_at(line, room, from, end, places)? {
        return Ok(Some(r));
    }
    if let Some(r) = reply_bytes(line, room, from, end, bytes, written, places)? {
        return Ok(Some(r));
    }
    let mut table = [0i64; 80];
    reply_signed(line, room, from, end, &mut table, entries)
}

// The answer to a line whose verb stands from place `from` up to `end`. No call writes more than 128 places.
fn answer_at(
    line: &[u8],
    room: u64,
    from: usize,
    end: usize,
    bytes: &mut [u8],
    written: &mut [u8],
    out: &mut [u8],
    at: usize,
) -> usize
    requires { (from ≤ end) × (end ≤ length line.now) }
{
    let mut places = [0u64; 140];
    let mut entries = [0i64; 80];
    let a = reply_line(
        line,
        room,
        from,
        end,
        bytes,
        written,
        &mut places,
        &mut entries,
    );
    replies::put(out, at, a, &places, written, &entries)
}

fn answer(line: &[u8], bytes: &mut [u8], written: &mut [u8], out: &mut [u8], at: usize) -> usize {
    match requests::head(line) {
        Some(verb) => answer_at(
            line, verb.room, verb.from, verb.end, bytes, written, out, at,
        ),
        None => replies::bad(out, at),
    }
}

// The answer to the line that is held. No answer takes more than 262,145 bytes: the digits of as many bytes as a line has, and the newline.
fn answer_held(
    rt: &impl Print,
    line: &[u8],
    held: usize,
    bytes: &mut [u8],
    written: &mut [u8],
    out: &mut [u8],
    at: usize,
) -> io::Result<usize> {
    let at = streams::with_room(rt, out, at, 262145)?;
    if held > line.len() {
        return Ok(replies::bad(out, at));
    }
    Ok(answer(&line[0..held], bytes, written, out, at))
}

// Holds one more byte of a line, where there is room for it. There is room for one byte more than a request has, so a line that is cut
// here is too long for a request (`requests::head`).
fn hold(line: &mut [u8], held: usize, b: u8) -> usize {
    if held < line.len() {
        line[held] = b;
        return held + 1;
    }
    held
}

// Answers the lines that end in a block, and holds what stands after the last of them: answers how many bytes that are.
fn answer_block(
    rt: &impl Print,
    block: &[u8],
    line: &mut [u8],
    before: usize,
    bytes: &mut [u8],
    written: &mut [u8],
    out: &mut [u8],
) -> io::Result<usize> {
    let mut held = before;
    let mut at = 0;
    for b in block {
        if *b == b'\n' {
            at = answer_held(rt, line, held, bytes, written, out, at)?;
            held = 0;
        } else {
            held = hold(line, held, *b);
        }
    }
    streams::flush(rt, out, at)?;
    Ok(held)
}

// A last line without a newline is a line.
fn answer_last(
    rt: &impl Print,
    line: &[u8],
    held: usize,
    bytes: &mut [u8],
    written: &mut [u8],
    out: &mut [u8],
) -> io::Result<()> {
    if held > 0 {
        let at = answer_held(rt, line, held, bytes, written, out, 0)?;
        streams::flush(rt, out, at)?;
    }
    Ok(())
}

// Answers the input block by block. Nothing says that an input ends, so the blocks are counted up to a number that no run reaches.
fn answer_input(
    rt: &(impl Input + Print),
    block: &mut [u8],
    line: &mut [u8],
    bytes: &mut [u8],
    written: &mut [u8],
    out: &mut [u8],
) -> io::Result<()> {
    let mut held = 0;
    for _ in 0..u64::MAX {
        let n = streams::read_some(rt, block)?;
        if n == 0 {
            return answer_last(rt, line, held, bytes, written, out);
        }
        held = answer_block(rt, &block[0..n], line, held, bytes, written, out)?;
    }
    Ok(())
}

// Answers standard input on standard output. A line has 262,144 bytes at most, so its bytes are 131,072 at most, and so are those of an answer.
// The buffers take 917,505 bytes of the stack.
pub fn run(rt: &(impl Input + Print)) -> io::Result<()> {
    let mut block = [0u8; 65536];
    let mut line = [0u8; 262145];
    let mut bytes = [0u8; 131072];
    let mut written = [0u8; 131072];
    let mut out = [0u8; 327680];
    answer_input(
        rt,
        &mut block,
        &mut line,
        &mut bytes,
        &mut written,
        &mut out,
    )
}
