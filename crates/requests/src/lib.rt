// A request (docs/RULES.md, section 13), taken apart once: the words after its verb, each with a byte for its kind and its value.
// The kinds: n a number, f and a the families, / itself, h and w the places of a walk (here, nowhere), r the word raw.
#![tactic(auto)]

ghost use Rattle.std.specs.Prelude.{◌≡◌, true, ◌+◌, ◌<◌, ◌≤◌, length, take, drop, get_or};
ghost use Rattle.text.specs.Text.{Found};
ghost use Rattle.requests.specs.Protocol.{texts_from};
ghost use Rattle.requests.specs.Parts.{Begins, VerbAt, AfterRoom, KindOf, TakenIn, Takes, family_at};
ghost use Rattle.requests.specs.Patterns.{stands_for, numbers_in, fits_pattern, after_list, After, Wants};

use words::Family;

// Where the verb of a line stands, and how many places it is lent before that: the verb's first place and the place after it.
#[derive(Clone, Copy)]
pub struct Verb {
    pub room: u64,
    pub from: usize,
    pub end: usize,
}

// A request that is lent `room` places and whose verb begins at place `from`; no verb is `room`.
fn verb_at(line: &[u8], room: u64, from: usize) -> Option<Verb>
    requires { from ≤ length line.now }
    ensures { VerbAt line.now room from result }
{
    let end = text::find(line, from, b' ');
    if check::same(&line[from..end], b"room") {
        return None;
    }
    Some(Verb { room, from, end })
}

// The places lent and the verb after them, for a line with a number at place `from`.
fn after_room(line: &[u8], from: usize) -> Option<Verb>
    ensures { AfterRoom line.now from result }
{
    if from > line.len() {
        return None;
    }
    let end = text::find(line, from, b' ');
    if end == line.len() {
        return None;
    }
    let room = text::read_number(&line[from..end])?;
    verb_at(line, room, end + 1)
}

// The verb of a line, after `room R` where the line begins with that.
pub fn head(line: &[u8]) -> Option<Verb>
    ensures { Begins line.now result }
{
    if line.len() > 262144 {
        return None;
    }
    let end = text::find(line, 0, b' ');
    if check::same(&line[0..end], b"room") {
        return after_room(line, end + 1);
    }
    Some(Verb {
        room: u64::MAX,
        from: 0,
        end,
    })
}

// The kind of a word that is no number, or 0 if it has none.
fn kind(word: &[u8]) -> u8
    ensures { KindOf word.now result }
{
    if check::same(word, b"/") {
        return b'/';
    }
    if check::same(word, b"here") {
        return b'h';
    }
    if check::same(word, b"nowhere") {
        return b'w';
    }
    if check::same(word, b"raw") {
        return b'r';
    }
    match text::family(word) {
        Some(Family::Forbidden) => b'f',
        Some(Family::Allowed) => b'a',
        None => 0,
    }
}

// Takes a word in as the i-th, and answers whether it is one.
fn take(word: &[u8], i: usize, kinds: &mut [u8], values: &mut [u64]) -> bool
    requires { (i < length kinds.old) × (i < length values.old) }
    ensures { TakenIn word.now i kinds.old values.old kinds.new values.new result }
{
    match text::read_number(word) {
        Some(n) => {
            kinds[i] = b'n';
            values[i] = n;
            true
        }
        None => {
            let k = kind(word);
            kinds[i] = k;
            values[i] = 0;
            k != 0
        }
    }
}

// The words from place `from` on, one space between two of them, if there are places for them all.
pub fn words(line: &[u8], from: usize, kinds: &mut [u8], values: &mut [u64]) -> Option<usize>
    ensures { Takes (texts_from line.now from) kinds.old values.old kinds.new values.new result }
{
    let places = kinds.len().min(values.len());
    let mut at = from;
    for n in 0..places {
        if at > line.len() {
            return Some(n);
        }
        let end = text::find(line, at, b' ');
        if !take(&line[at..end], n, kinds, values) {
            return None;
        }
        at = end + 1;
    }
    if at <= line.len() {
        return None;
    }
    Some(places)
}

// The place after the numbers that stand from place i on.
fn after_numbers(kinds: &[u8], i: usize) -> usize
    ensures { result ≡ i + numbers_in (drop i kinds.now) }
{
    for to in i..kinds.len() {
        if kinds[to] != b'n' {
            return to;
        }
    }
    i.max(kinds.len())
}

// The place after the list at place i, or a place past the end if it has more than the most numbers.
fn after_list(kinds: &[u8], i: usize, most: usize) -> usize
    ensures { result ≡ after_list kinds.now i most }
{
    let to = after_numbers(kinds, i);
    if to - i > most {
        return kinds.len() + 1;
    }
    to
}

// Whether a word of this kind stands for a letter of a pattern: F for a family, and itself otherwise.
fn is_for(kind: u8, letter: u8) -> bool
    ensures { result ≡ stands_for kind letter }
{
    if letter == b'F' {
        if kind == b'f' {
            return true;
        }
        return kind == b'a';
    }
    kind == letter
}

// The place after what a letter of a pattern stands for at place i, or a place past the end if that is not there.
fn after(kinds: &[u8], i: usize, letter: u8) -> usize
    ensures { After kinds.now i letter result }
{
    if letter == b'*' {
        return after_list(kinds, i, 80);
    }
    if letter == b'W' {
        return after_list(kinds, i, 140);
    }
    if i >= kinds.len() {
        return kinds.len() + 1;
    }
    if is_for(kinds[i], letter) {
        return i + 1;
    }
    kinds.len() + 1
}

// Whether the words are those of a pattern: F a family, * a list of numbers, W a longer one, any other letter a word of that kind.
fn are(kinds: &[u8], pattern: &[u8]) -> bool
    ensures { result ≡ fits_pattern pattern.now kinds.now }
{
    let mut i = 0;
    for letter in pattern {
        i = after(kinds, i, *letter);
    }
    i == kinds.len()
}

// Whether a request is the one that an entry says: its verb, a space, and the pattern of the words after it.
pub fn asks(verb: &[u8], kinds: &[u8], entry: &[u8]) -> bool
    ensures { (result ≡ true → Wants verb.now kinds.now entry.now) × (Wants verb.now kinds.now entry.now → result ≡ true) }
{
    let end = text::find(entry, 0, b' ');
    if !check::same(verb, &entry[0..end]) {
        return false;
    }
    if end == entry.len() {
        return false;
    }
    are(kinds, &entry[end + 1..])
}

// The family at place i.
pub fn family(kinds: &[u8], i: usize) -> Family
    ensures { result ≡ family_at kinds.now i }
{
    if i < kinds.len() {
        if kinds[i] == b'a' {
            return Family::Allowed;
        }
    }
    Family::Forbidden
}

// The number at place i.
pub fn number(values: &[u64], i: usize) -> u64
    ensures { result ≡ get_or values.now i 0 }
{
    if i < values.len() {
        return values[i];
    }
    0
}

// The list that begins at place i and runs to the end.
pub fn list(values: &[u64], i: usize) -> &[u64]
    ensures { result.now ≡ drop i values.now }
{
    if i <= values.len() {
        return &values[i..];
    }
    &values[0..0]
}

// The place of the `/` that separates two lists, or the number of words if there is none.
pub fn slash(kinds: &[u8]) -> usize
    ensures { Found kinds.now 0 47 result }
{
    text::find(kinds, 0, b'/')
}

// The list that ends at the `/`, whose place is given.
pub fn list_before(values: &[u64], slash: usize) -> &[u64]
    ensures { result.now ≡ take slash values.now }
{
    if slash <= values.len() {
        return &values[0..slash];
    }
    values
}

// The list that begins after the `/`, whose place is given.
pub fn list_after(values: &[u64], slash: usize) -> &[u64]
    ensures { result.now ≡ drop (slash + 1) values.now }
{
    if slash < values.len() {
        return &values[slash + 1..];
    }
    &values[0..0]
}
