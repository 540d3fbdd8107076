// The words of a request by their places (docs/RULES.md, section 13), for verbs whose words are bytes or signed numbers: `10` is a number
// where a number stands and a byte where bytes do, so a text is read as the pattern of its verb says.
#![tactic(auto)]

ghost use Rattle.std.specs.Prelude.{◌≡◌, [], true, drop, get_or};
ghost use Rattle.requests.specs.Protocol.{texts_from};
ghost use Rattle.spelling.specs.Hex.{BytesIn};
ghost use Rattle.fields.specs.Fields.{Stands, Passes, Asks, Begins, NumberIs, FamilyIs, SignedIn};

use words::Family;

// Whether a text is what a letter stands for: n a number, F a family, B bytes, / itself.
fn stands(text: &[u8], letter: u8) -> bool
    ensures { (result ≡ true → Stands letter text.now) × (Stands letter text.now → result ≡ true) }
{
    if letter == b'n' {
        return text::read_number(text).is_some();
    }
    if letter == b'F' {
        return text::family(text).is_some();
    }
    if letter == b'B' {
        return spelling::is_bytes(text);
    }
    if letter == b'/' {
        return check::same(text, b"/");
    }
    false
}

// The place after the texts of a pattern, where those from place `from` on begin with them.
fn after(line: &[u8], from: usize, pattern: &[u8]) -> Option<usize>
    ensures { Passes pattern.now line.now (texts_from line.now from) result }
{
    let mut at = from;
    for letter in pattern {
        if at > line.len() {
            return None;
        }
        let end = text::find(line, at, b' ');
        if !stands(&line[at..end], *letter) {
            return None;
        }
        at = end + 1;
    }
    Some(at)
}

// Whether a request is of a verb, and the texts after it, from place `from` on, are those of a pattern.
pub fn asks(verb: &[u8], name: &[u8], line: &[u8], from: usize, pattern: &[u8]) -> bool
    ensures { (result ≡ true → Asks verb.now name.now pattern.now (texts_from line.now from)) × (Asks verb.now name.now pattern.now (texts_from line.now from) → result ≡ true) }
{
    if !check::same(verb, name) {
        return false;
    }
    match after(line, from, pattern) {
        Some(r) => r > line.len(),
        None => false,
    }
}

// Whether a request is of a verb, and the texts after it begin with those of a pattern.
pub fn begins(verb: &[u8], name: &[u8], line: &[u8], from: usize, pattern: &[u8]) -> bool
    ensures { (result ≡ true → Begins verb.now name.now pattern.now (texts_from line.now from)) × (Begins verb.now name.now pattern.now (texts_from line.now from) → result ≡ true) }
{
    if !check::same(verb, name) {
        return false;
    }
    after(line, from, pattern).is_some()
}

// Where the i-th text begins, of those from place `from` on; past the end where there are no more than i.
fn place(line: &[u8], from: usize, i: usize) -> usize
    ensures { texts_from line.now result ≡ drop i (texts_from line.now from) }
{
    let mut at = from;
    for _ in 0..i {
        if at > line.len() {
            return at;
        }
        at = text::find(line, at, b' ') + 1;
    }
    at
}

// The i-th text, of those from place `from` on; an empty one, which says nothing, where there are no more than i.
pub fn text_at(line: &[u8], from: usize, i: usize) -> &[u8]
    ensures { result.now ≡ get_or (texts_from line.now from) i [] }
{
    let at = place(line, from, i);
    if at > line.len() {
        return &line[0..0];
    }
    let end = text::find(line, at, b' ');
    &line[at..end]
}

// The number that the i-th text writes.
pub fn number(line: &[u8], from: usize, i: usize) -> u64
    ensures { NumberIs (get_or (texts_from line.now from) i []) result }
{
    text::read_number(text_at(line, from, i)).unwrap_or(0)
}

// The family that it names.
pub fn family(line: &[u8], from: usize, i: usize) -> Family
    ensures { FamilyIs (get_or (texts_from line.now from) i []) result }
{
    text::family(text_at(line, from, i)).unwrap_or(Family::Forbidden)
}

// The bytes that it writes, into the first places of a buffer that holds them: answers how many they are.
pub fn bytes(line: &[u8], from: usize, i: usize, held: &mut [u8]) -> usize
    ensures { BytesIn (get_or (texts_from line.now from) i []) held.old held.new result }
{
    spelling::bytes(text_at(line, from, i), held)
}

// The signed numbers from place `from` on, where all texts are that and the table has places for them.
fn list(line: &[u8], from: usize, table: &mut [i64]) -> Option<usize>
    ensures { SignedIn (texts_from line.now from) table.old table.new result }
{
    let mut at = from;
    for n in 0..table.len() {
        if at > line.len() {
            return Some(n);
        }
        let end = text::find(line, at, b' ');
        let z = spelling::read_signed(&line[at..end])?;
        table[n] = z;
        at = end + 1;
    }
    if at <= line.len() {
        return None;
    }
    Some(table.len())
}

// The signed numbers from the i-th text on.
pub fn signed(line: &[u8], from: usize, i: usize, table: &mut [i64]) -> Option<usize>
    ensures { SignedIn (drop i (texts_from line.now from)) table.old table.new result }
{
    list(line, place(line, from, i), table)
}
