// An image of coefficient tables (docs/RULES.md, section 15) as a person reads it: the list of its tables, and what is wrong with a bad one. Each
// function puts text into a lent buffer from a place on, and answers the place after it. The contents list that it reads may be any bytes.
#![tactic(auto)]

ghost use Rattle.std.specs.Prelude.{◌≡◌, ◌≤◌, ◌<◌, length, get_or};
ghost use Rattle.image_text.specs.Place.{Falls};

use words::Family;

// Where an offset falls: in the number of tables, in a row of the contents list at so many bytes from its beginning, or behind the list.
#[derive(Clone, Copy)]
pub enum Place {
    Number,
    Row(u64, u64),
    Behind,
}

// A table, as its row of the contents list has it.
#[derive(Clone, Copy)]
pub struct Table {
    pub family: Family,
    pub degree: u64,
    pub alphabet: u64,
    pub offset: u64,
    pub entries: u64,
}

// ---- the fields

// The byte at a place of the list, or 0 where the list has none.
fn byte(list: &[u8], at: u64) -> u64
    ensures { result < 256 }
{
    if at < list.len() as u64 {
        return little_endian::wide(list[at as usize]);
    }
    0
}

// The number of four bytes from a place on, or 0 where the list does not have them.
fn four(list: &[u8], at: u64) -> u64
    ensures { result < 4294967296 }
{
    if list.len() < 4 {
        return 0;
    }
    if list.len() as u64 - 4 < at {
        return 0;
    }
    little_endian::four(list, at)
}

// Where row i begins; there are 64 rows at most.
fn row_place(i: u64) -> u64
    ensures { result ≤ 760 }
{
    if i < 64 {
        return 4 + 12 * i;
    }
    4
}

fn family(list: &[u8], i: u64) -> Family {
    if byte(list, row_place(i)) == 0 {
        return Family::Forbidden;
    }
    Family::Allowed
}

fn table_of(list: &[u8], i: u64) -> Table {
    let at = row_place(i);
    let family = family(list, i);
    let degree = byte(list, at + 1);
    let alphabet = byte(list, at + 2);
    let offset = four(list, at + 4);
    let entries = four(list, at + 8);
    Table {
        family,
        degree,
        alphabet,
        offset,
        entries,
    }
}

// How many tables the list has, as far as a list can have them.
pub fn tables(list: &[u8]) -> u64
    ensures { result ≤ 64 }
{
    let t = four(list, 0);
    if t < 64 {
        return t;
    }
    64
}

// Where the body of table i has to begin, given that the rows before it are right: behind the body of the table before.
fn body_place(list: &[u8], i: u64) -> u64 {
    if i == 0 {
        return 4 + 12 * tables(list);
    }
    let above = row_place(i - 1);
    four(list, above + 4) + 8 * four(list, above + 8)
}

// The first table before table i that has the family and degree of table i, or i.
fn same_above(list: &[u8], i: u64) -> u64 {
    let at = row_place(i);
    let f = byte(list, at);
    let k = byte(list, at + 1);
    for j in 0..64 {
        if byte(list, row_place(j)) == f {
            if byte(list, row_place(j) + 1) == k {
                return j;
            }
        }
    }
    i
}

// Where an offset of an image with so many tables falls.
pub fn place_of(tables: u64, at: u64) -> Place
    requires { tables ≤ 64 }
    ensures { Falls tables at result }
{
    if at < 4 {
        return Place::Number;
    }
    if 4 + 12 * tables <= at {
        return Place::Behind;
    }
    Place::Row((at - 4) / 12, (at - 4) % 12)
}

// ---- words and numbers

// The name of a family at the right end of a column of eleven places.
fn put_name(out: &mut [u8], at: usize, f: Family) -> usize {
    match f {
        Family::Forbidden => text::put(out, at, b"  forbidden"),
        Family::Allowed => text::put(out, at, b"    allowed"),
    }
}

// As many spaces as a number below 100,000 leaves free of ten places.
fn put_spaces(out: &mut [u8], at: usize, n: u64) -> usize {
    if n < 10 {
        return text::put(out, at, b"         ");
    }
    if n < 100 {
        return text::put(out, at, b"        ");
    }
    if n < 1000 {
        return text::put(out, at, b"       ");
    }
    if n < 10000 {
        return text::put(out, at, b"      ");
    }
    text::put(out, at, b"     ")
}

// A number at the right end of a column of ten places.
fn put_right(out: &mut [u8], at: usize, n: u64) -> usize {
    let at = put_spaces(out, at, n);
    text::put_number(out, at, n)
}

// The word of a rank, its symbols separated by spaces.
fn put_term(out: &mut [u8], at: usize, r: Table, rank: u64) -> usize {
    let mut word = [0u64; 64];
    let f = r.family;
    let Ok(k) = monotone_unrank::unrank(f, r.alphabet, r.degree, rank, &mut word) else {
        return at;
    };
    terms_answer::put_symbols(out, at, &word, k)
}

// Which terms a table has: the first and the last by rank.
fn put_terms(out: &mut [u8], at: usize, r: Table) -> usize {
    if r.degree == 0 {
        return text::put(out, at, b" the constant");
    }
    let at = put_term(out, at, r, 0);
    if r.entries < 2 {
        return at;
    }
    let at = text::put(out, at, b" to");
    put_term(out, at, r, r.entries - 1)
}

// ---- the list of a good image

// Two numbers, each at the right end of its column.
fn put_both(out: &mut [u8], at: usize, m: u64, n: u64) -> usize {
    let at = put_right(out, at, m);
    put_right(out, at, n)
}

// Table i by its number, its family, its degree and its alphabet.
fn put_kind(out: &mut [u8], at: usize, i: u64, r: Table) -> usize {
    let at = put_right(out, at, i);
    let f = r.family;
    let at = put_name(out, at, f);
    put_both(out, at, r.degree, r.alphabet)
}

// Where its body begins, how many entries it has, and for which terms.
fn put_body(out: &mut [u8], at: usize, r: Table) -> usize {
    let at = put_both(out, at, r.offset, r.entries);
    let at = text::put_byte(out, at, b' ');
    put_terms(out, at, r)
}

// The line of table i.
fn put_table(out: &mut [u8], at: usize, list: &[u8], i: u64) -> usize {
    let r = table_of(list, i);
    let at = put_kind(out, at, i, r);
    let at = put_body(out, at, r);
    text::put_byte(out, at, b'\n')
}

// The lines of the tables.
fn put_tables(out: &mut [u8], at: usize, list: &[u8], tables: u64) -> usize {
    let mut to = at;
    for i in 0..tables {
        to = put_table(out, to, list, i);
    }
    to
}

// A number of things: " table" for one, " tables" for any other number.
fn put_counted(out: &mut [u8], at: usize, n: u64, one: &[u8], many: &[u8]) -> usize {
    let at = text::put_number(out, at, n);
    if n == 1 {
        return text::put(out, at, one);
    }
    text::put(out, at, many)
}

// What an image is: so many tables, in so many bytes.
fn put_size(out: &mut [u8], at: usize, tables: u64, size: u64) -> usize {
    let at = text::put(out, at, b"good image: ");
    let at = put_counted(out, at, tables, b" table", b" tables");
    let at = text::put(out, at, b", ");
    put_counted(out, at, size, b" byte", b" bytes")
}

// The names of the columns.
fn put_columns(out: &mut [u8], at: usize) -> usize {
    text::put(
        out,
        at,
        b"\n     table     family    degree  alphabet    offset   entries  terms by rank\n",
    )
}

// The list of the tables of a good image of so many bytes, whose first bytes are given.
pub fn put_contents(out: &mut [u8], at: usize, list: &[u8], size: u64) -> usize {
    let t = tables(list);
    let at = put_size(out, at, t, size);
    let at = put_columns(out, at);
    put_tables(out, at, list, t)
}

// ---- what is wrong

fn put_family(out: &mut [u8], at: usize, family: u64) -> usize {
    phrases::around(
        out,
        at,
        b"family ",
        family,
        b" is neither 0 (forbidden) nor 1 (allowed)",
    )
}

fn put_degree(out: &mut [u8], at: usize, list: &[u8], i: u64, degree: u64) -> usize {
    let at = phrases::with_number(out, at, b"degree ", degree);
    if degree > 64 {
        return text::put(out, at, b" is above 64");
    }
    let above = same_above(list, i);
    phrases::around(out, at, b" stands in table ", above, b" already")
}

fn put_alphabet(out: &mut [u8], at: usize, alphabet: u64, degree: u64) -> usize {
    let at = phrases::with_number(out, at, b"alphabet ", alphabet);
    if alphabet > 64 {
        return text::put(out, at, b" is above 64");
    }
    phrases::around(
        out,
        at,
        b" is too wide for degree ",
        degree,
        b": together they may be 65",
    )
}

fn put_after_alphabet(out: &mut [u8], at: usize, found: u64) -> usize {
    phrases::around(
        out,
        at,
        b"the byte after the alphabet is ",
        found,
        b" and not 0",
    )
}

fn put_offset(out: &mut [u8], at: usize, offset: u64, wanted: u64) -> usize {
    let at = phrases::with_number(out, at, b"offset ", offset);
    phrases::with_number(out, at, b" should be ", wanted)
}

// The number of terms that the table of a row has, by the library's count; 0 where that is refused.
fn terms_of(r: Table) -> u64 {
    let f = r.family;
    let Ok(c) = monotone_count::count(f, r.alphabet, r.degree) else {
        return 0;
    };
    c
}

fn put_entries(out: &mut [u8], at: usize, r: Table) -> usize {
    let c = terms_of(r);
    if c == 0 {
        return text::put(out, at, b"a table of this degree and alphabet has no terms");
    }
    let at = put_counted(out, at, r.entries, b" entry", b" entries");
    if r.entries == c {
        return text::put(out, at, b": the body would end past byte 65536");
    }
    let at = text::put(out, at, b" for a table of ");
    put_counted(out, at, c, b" term", b" terms")
}

// What is wrong with the field of row i that begins at byte `within` of it.
fn put_field(out: &mut [u8], at: usize, list: &[u8], i: u64, within: u64) -> usize {
    let r = table_of(list, i);
    let place = row_place(i);
    match within {
        0 => put_family(out, at, byte(list, place)),
        1 => put_degree(out, at, list, i, r.degree),
        2 => put_alphabet(out, at, r.alphabet, r.degree),
        3 => put_after_alphabet(out, at, byte(list, place + 3)),
        4 => put_offset(out, at, r.offset, body_place(list, i)),
        _ => put_entries(out, at, r),
    }
}

// What is missing from an image that ends at byte `size`.
fn put_short(out: &mut [u8], at: usize, list: &[u8], size: u64) -> usize {
    if size < 4 {
        return text::put(out, at, b"the image ends in its number of tables");
    }
    let t = tables(list);
    let bodies = 4 + 12 * t;
    if size < bodies {
        return phrases::with_number(
            out,
            at,
            b"the image ends in its contents list, which ends at byte ",
            bodies,
        );
    }
    let end = body_place(list, t);
    phrases::with_number(
        out,
        at,
        b"the image ends in its bodies, which end at byte ",
        end,
    )
}

// What is wrong with the number of tables.
fn put_number(out: &mut [u8], at: usize, tables: u64) -> usize {
    phrases::around(
        out,
        at,
        b"the number of tables is ",
        tables,
        b" and not 1 to 64",
    )
}

// What is wrong with row i, in the field that begins at byte `within` of it.
fn put_row(out: &mut [u8], at: usize, list: &[u8], i: u64, within: u64) -> usize {
    let at = phrases::around(out, at, b"table ", i, b": ");
    put_field(out, at, list, i, within)
}

// What is wrong with an image of `size` bytes that is refused at an offset, given its first bytes.
pub fn put_fault(out: &mut [u8], at: usize, list: &[u8], size: u64, offset: u64) -> usize {
    if offset == size {
        return put_short(out, at, list, size);
    }
    match place_of(tables(list), offset) {
        Place::Number => put_number(out, at, four(list, 0)),
        Place::Row(i, within) => put_row(out, at, list, i, within),
        Place::Behind => text::put(out, at, b"the bodies end here, and more bytes follow"),
    }
}
