// The text from which an image is made (docs/RULES.md, section 17), line by line: `table`, a family, a degree and an alphabet begin a table, and the
// lines after it have its entries in the order of their terms' ranks. `#` begins a comment. The contents list and the bodies are lent buffers.
#![tactic(auto)]

ghost use Rattle.std.specs.Prelude.{◌≡◌, ◌+◌, ◌*◌, ◌≤◌, ◌<◌, length};

use little_endian::wide;
use words::Family;

// What may be wrong with a description.
#[derive(Clone, Copy)]
pub enum Wrong {
    Family,
    Degree,
    Alphabet,
    MoreWords,
    MoreTables,
    Entry,
    EntryBeforeTable,
    MoreEntries,
}

// What is wrong in which line, from which column on; both count from 1.
#[derive(Clone, Copy)]
pub struct Fault {
    pub wrong: Wrong,
    pub line: u64,
    pub column: u64,
}

// How far a description is read: how many tables have begun, how many entries stand in the bodies, and the number of the line.
#[derive(Clone, Copy)]
pub struct Making {
    pub tables: u64,
    pub entries: u64,
    pub line: u64,
}

// Before the first line.
pub fn start() -> Making {
    Making {
        tables: 0,
        entries: 0,
        line: 0,
    }
}

// At the next line.
fn next_line(m: Making) -> Making {
    let mut line = m.line;
    if line < u64::MAX {
        line += 1;
    }
    Making {
        tables: m.tables,
        entries: m.entries,
        line,
    }
}

// What is wrong in the line, from its place `at` on.
fn fault_at(m: Making, wrong: Wrong, at: usize) -> Fault {
    let mut column = at as u64;
    if column < u64::MAX {
        column += 1;
    }
    Fault {
        wrong,
        line: m.line,
        column,
    }
}

// ---- words of a line

fn blank(b: u8) -> bool {
    if b == b' ' {
        return true;
    }
    if b == b'\t' {
        return true;
    }
    b == b'\r'
}

// The first place at or after `from` where a word begins, or the length of the line.
fn skip(line: &[u8], from: usize) -> usize
    requires { from ≤ length line.now }
    ensures { (from ≤ result) × (result ≤ length line.now) }
{
    for i in from..line.len() {
        if !blank(line[i]) {
            return i;
        }
    }
    line.len()
}

// The first blank at or after `from`, or the length of the line.
fn word_end(line: &[u8], from: usize) -> usize
    requires { from ≤ length line.now }
    ensures { (from ≤ result) × (result ≤ length line.now) }
{
    for i in from..line.len() {
        if blank(line[i]) {
            return i;
        }
    }
    line.len()
}

// The number of four bytes, the highest first.
fn four(a: u8, b: u8, c: u8, d: u8) -> u64
    ensures { result < 4294967296 }
{
    wide(d) + 256 * (wide(c) + 256 * (wide(b) + 256 * wide(a)))
}

// The number of eight bytes, the highest first.
fn highest_first(s: &[u8; 8]) -> u64 {
    four(s[4], s[5], s[6], s[7]) + 4294967296 * four(s[0], s[1], s[2], s[3])
}

// The number of sixteen hexadecimal digits, the highest first.
fn bits(word: &[u8]) -> Option<u64> {
    if word.len() != 16 {
        return None;
    }
    if !spelling::is_bytes(word) {
        return None;
    }
    let mut eight = [0u8; 8];
    spelling::bytes(word, &mut eight);
    Some(highest_first(&eight))
}

// The pattern of a negative number: 2^64 less what is written after the sign, which is 1 to 2^63.
fn negative(word: &[u8]) -> Option<u64> {
    let n = text::read_number(word)?;
    if n == 0 {
        return None;
    }
    if n > 9223372036854775808 {
        return None;
    }
    Some(u64::MAX - n + 1)
}

// An entry: a number below 2^64, a negative number down to -2^63, or `0x` and the sixteen digits of its bits.
pub fn entry(word: &[u8]) -> Option<u64> {
    if word.len() < 2 {
        return text::read_number(word);
    }
    if word[0] == b'-' {
        return negative(&word[1..]);
    }
    if check::same(&word[0..2], b"0x") {
        return bits(&word[2..]);
    }
    text::read_number(word)
}

// ---- bytes

fn low(n: u64) -> u8 {
    (n % 256) as u8
}

// A number of four bytes, the lowest first.
fn put_four(out: &mut [u8], at: usize, n: u64) -> usize {
    text::put(
        out,
        at,
        &[low(n), low(n / 256), low(n / 65536), low(n / 16777216)],
    )
}

// A number of eight bytes.
fn put_eight(out: &mut [u8], at: usize, n: u64) -> usize {
    let at = put_four(out, at, n % 4294967296);
    put_four(out, at, n / 4294967296)
}

// ---- lines

fn family_byte(f: Family) -> u8 {
    match f {
        Family::Forbidden => 0,
        Family::Allowed => 1,
    }
}

// One more row, its offset and number of entries left open, with the line that it stands in and the entries before it.
fn open_table(
    m: Making,
    f: Family,
    k: u64,
    n: u64,
    contents: &mut [u8],
    before: &mut [u64; 64],
    lines: &mut [u64; 64],
) -> Result<Making, Fault> {
    let t = m.tables;
    if t >= 64 {
        return Err(fault_at(m, Wrong::MoreTables, 0));
    }
    let i = t as usize;
    text::put(contents, 4 + 12 * i, &[family_byte(f), low(k), low(n), 0]);
    before[i] = m.entries;
    lines[i] = m.line;
    Ok(Making {
        tables: t + 1,
        entries: m.entries,
        line: m.line,
    })
}

// The words after the degree of a table, from a place of the line on: an alphabet and nothing more.
fn take_alphabet(
    line: &[u8],
    from: usize,
    m: Making,
    f: Family,
    k: u64,
    contents: &mut [u8],
    before: &mut [u64; 64],
    lines: &mut [u64; 64],
) -> Result<Making, Fault>
    requires { from ≤ length line.now }
{
    let a = skip(line, from);
    let b = word_end(line, a);
    let Some(n) = text::read_number(&line[a..b]) else {
        return Err(fault_at(m, Wrong::Alphabet, a));
    };
    if n > 64 {
        return Err(fault_at(m, Wrong::Alphabet, a));
    }
    let c = skip(line, b);
    if c < line.len() {
        return Err(fault_at(m, Wrong::MoreWords, c));
    }
    open_table(m, f, k, n, contents, before, lines)
}

// The words after its family: a degree, and those after it.
fn take_degree(
    line: &[u8],
    from: usize,
    m: Making,
    f: Family,
    contents: &mut [u8],
    before: &mut [u64; 64],
    lines: &mut [u64; 64],
) -> Result<Making, Fault>
    requires { from ≤ length line.now }
{
    let a = skip(line, from);
    let b = word_end(line, a);
    let Some(k) = text::read_number(&line[a..b]) else {
        return Err(fault_at(m, Wrong::Degree, a));
    };
    if k > 64 {
        return Err(fault_at(m, Wrong::Degree, a));
    }
    take_alphabet(line, b, m, f, k, contents, before, lines)
}

// The words after `table`: a family, a degree, an alphabet and nothing more.
fn take_table(
    line: &[u8],
    from: usize,
    m: Making,
    contents: &mut [u8],
    before: &mut [u64; 64],
    lines: &mut [u64; 64],
) -> Result<Making, Fault>
    requires { from ≤ length line.now }
{
    let a = skip(line, from);
    let b = word_end(line, a);
    let Some(f) = text::family(&line[a..b]) else {
        return Err(fault_at(m, Wrong::Family, a));
    };
    take_degree(line, b, m, f, contents, before, lines)
}

// One more entry, the word at a place of the line.
fn take_entry(word: &[u8], at: usize, m: Making, bodies: &mut [u8]) -> Result<Making, Fault> {
    let Some(n) = entry(word) else {
        return Err(fault_at(m, Wrong::Entry, at));
    };
    if m.tables == 0 {
        return Err(fault_at(m, Wrong::EntryBeforeTable, at));
    }
    let e = m.entries;
    if e >= 8192 {
        return Err(fault_at(m, Wrong::MoreEntries, at));
    }
    put_eight(bodies, 8 * e as usize, n);
    Ok(Making {
        tables: m.tables,
        entries: e + 1,
        line: m.line,
    })
}

// The entries of a line, up to the first that is wrong.
fn take_entries(line: &[u8], m: Making, bodies: &mut [u8]) -> Result<Making, Fault> {
    let mut made = m;
    let mut at = skip(line, 0);
    // The loop goes from word to word by where each one ends, since a fault names its column: it counts no index.
    while at < line.len() {
        let end = word_end(line, at + 1);
        made = take_entry(&line[at..end], at, made, bodies)?;
        at = skip(line, end);
    }
    Ok(made)
}

// A line without its comment.
fn take_words(
    line: &[u8],
    m: Making,
    contents: &mut [u8],
    bodies: &mut [u8],
    before: &mut [u64; 64],
    lines: &mut [u64; 64],
) -> Result<Making, Fault> {
    let a = skip(line, 0);
    let b = word_end(line, a);
    if check::same(&line[a..b], b"table") {
        return take_table(line, b, m, contents, before, lines);
    }
    take_entries(line, m, bodies)
}

// Takes the next line in.
pub fn take_line(
    line: &[u8],
    m: Making,
    contents: &mut [u8],
    bodies: &mut [u8],
    before: &mut [u64; 64],
    lines: &mut [u64; 64],
) -> Result<Making, Fault> {
    let end = text::find(line, 0, b'#');
    take_words(&line[0..end], next_line(m), contents, bodies, before, lines)
}

// Completes row i of t: its offset, and the number of its entries, by the entries before it and those before the next.
fn close_row(contents: &mut [u8], i: u64, t: u64, from: u64, to: u64) {
    if t > 64 {
        return;
    }
    if i >= t {
        return;
    }
    if to > 8192 {
        return;
    }
    if from > to {
        return;
    }
    let at = put_four(contents, 8 + 12 * i as usize, 4 + 12 * t + 8 * from);
    put_four(contents, at, to - from);
}

// How many entries stand before table i, or in all.
fn entries_before(m: Making, before: &[u64; 64], i: u64) -> u64 {
    if i < m.tables {
        if i < 64 {
            return before[i as usize];
        }
    }
    m.entries
}

// Completes the contents list, after the last line.
pub fn close(m: Making, contents: &mut [u8], before: &[u64; 64]) {
    let t = m.tables;
    put_four(contents, 0, t % 4294967296);
    for i in 0..t {
        let from = entries_before(m, before, i);
        let to = entries_before(m, before, i + 1);
        close_row(contents, i, t, from, to);
    }
}

// ---- what is wrong

fn reason(out: &mut [u8], at: usize, wrong: Wrong) -> usize {
    match wrong {
        Wrong::Family => text::put(out, at, b"a family is forbidden or allowed"),
        Wrong::Degree => text::put(out, at, b"a degree is a number from 0 to 64"),
        Wrong::Alphabet => text::put(out, at, b"an alphabet is a number from 0 to 64"),
        Wrong::MoreWords => text::put(out, at, b"nothing stands after the alphabet of a table"),
        Wrong::MoreTables => text::put(out, at, b"an image has at most 64 tables"),
        Wrong::Entry => text::put(
            out,
            at,
            b"an entry is a whole number from -2^63 to 2^64 - 1, or 0x and 16 digits",
        ),
        Wrong::EntryBeforeTable => text::put(out, at, b"an entry stands before the first table"),
        Wrong::MoreEntries => text::put(out, at, b"the image would pass 65536 bytes"),
    }
}

// What is wrong, after the line and the column where it stands.
pub fn put_fault(out: &mut [u8], at: usize, fault: Fault) -> usize {
    let at = phrases::with_number(out, at, b"line ", fault.line);
    let at = phrases::around(out, at, b", column ", fault.column, b": ");
    let wrong = fault.wrong;
    reason(out, at, wrong)
}
