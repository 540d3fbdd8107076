// Images of coefficient tables, for programs in C (docs/RULES.md, sections 15 and 16). Each call answers and is refused as the call that it names of the crates
// image_check, image_reading, image_lookup, image_writing and pieces_lent. An image is refused by 11 with the offset of its first wrong field. "Taken" is how a given
// index is taken first, as with terms. The check of an image in pieces keeps its state in four variables of the caller's: the first 772 bytes, how many bytes
// have been seen, the verdict (0 open, 1 good, 2 bad) and its number (how many tables there are, or the offset of 11; 0 while it is open).
ghost use Rattle.std.specs.Prelude.{◌≡◌, length};
ghost use Rattle.answers.specs.Says.{after, places_of, answer_says};
ghost use Rattle.image_rules.specs.Image.{image_says};
ghost use Rattle.image_reading.specs.Reading.{row_says};
ghost use Rattle.image_lookup.specs.Lookup.{lookup_says, lookup_at_says};
ghost use Rattle.image_writing.specs.Writing.{write_says};
ghost use Rattle.pieces.specs.Pieces.{start as start_of, fed, closed};
ghost use Rattle.pieces_lent.specs.Parts.{verdict_at, state_at, code_of, number_in};
ghost use Rattle.boundary.specs.Boundary.{family_of, index_at, answered, status, stored, itself};
ghost use Rattle.capi.specs.Images.{alphabet_of_table, offset_of_table, entries_of_table, table_of, told_says, still_open, tables_told};

use answers::Refusal;
use boundary::Status;
use image_reading::Table;
use pieces::Verdict;

// How many tables an image has: 11.
#[unsafe(no_mangle)]
pub extern "C" fn gudrenoss_image_check(image: &[u8], tables: &mut u64) -> Status
    ensures back { result ≡ status (image_says image.now) }
    ensures holds { tables.new ≡ stored itself (image_says image.now) tables.old }
{
    boundary::number(image_check::check(image), tables)
}

// A table, as its alphabet, the offset of its body and how many entries that has.
fn table(
    a: Result<Table, Refusal>,
    alphabet: &mut u64,
    offset: &mut u64,
    entries: &mut u64,
) -> Status
    ensures back { result ≡ status (answer_says a) }
    ensures alphabet { alphabet.new ≡ stored alphabet_of_table (answer_says a) alphabet.old }
    ensures offset { offset.new ≡ stored offset_of_table (answer_says a) offset.old }
    ensures entries { entries.new ≡ stored entries_of_table (answer_says a) entries.old }
{
    match a {
        Ok(t) => {
            *alphabet = t.alphabet;
            *offset = t.offset;
            *entries = t.entries;
            boundary::answer()
        }
        Err(e) => boundary::refused(e),
    }
}

// The table of a family and a degree k, which may be any number: 11; 12 if the image has none.
#[unsafe(no_mangle)]
pub extern "C" fn gudrenoss_image_row(
    image: &[u8],
    allowed: bool,
    k: u64,
    alphabet: &mut u64,
    offset: &mut u64,
    entries: &mut u64,
) -> Status
    ensures back { result ≡ status (row_says image.now (family_of allowed) k) }
    ensures alphabet { alphabet.new ≡ stored alphabet_of_table (row_says image.now (family_of allowed) k) alphabet.old }
    ensures offset { offset.new ≡ stored offset_of_table (row_says image.now (family_of allowed) k) offset.old }
    ensures entries { entries.new ≡ stored entries_of_table (row_says image.now (family_of allowed) k) entries.old }
{
    table(
        image_reading::row(image, boundary::family(allowed), k),
        alphabet,
        offset,
        entries,
    )
}

// The coefficient of a term, given as an index: taken; 11; 12 if the image has no table of its family and degree; 3 if it uses a symbol that the table does not have.
#[unsafe(no_mangle)]
pub extern "C" fn gudrenoss_image_lookup(
    image: &[u8],
    allowed: bool,
    n: u64,
    bits: u64,
    coefficient: &mut u64,
) -> Status
    ensures back { result ≡ status (lookup_says image.now (index_at allowed n bits)) }
    ensures holds { coefficient.new ≡ stored itself (lookup_says image.now (index_at allowed n bits)) coefficient.old }
{
    boundary::number(
        image_lookup::lookup(image, boundary::index(allowed, n, bits)),
        coefficient,
    )
}

// The same by a table that was found before, so that the image is not judged again: taken; 7 if the table's body does not lie within the image; 3 if it has no entry of
// the term's rank.
#[unsafe(no_mangle)]
pub extern "C" fn gudrenoss_image_at(
    image: &[u8],
    alphabet: u64,
    offset: u64,
    entries: u64,
    allowed: bool,
    n: u64,
    bits: u64,
    coefficient: &mut u64,
) -> Status
    ensures back { result ≡ status (lookup_at_says image.now (table_of alphabet offset entries) (index_at allowed n bits)) }
    ensures holds { coefficient.new ≡ stored itself (lookup_at_says image.now (table_of alphabet offset entries) (index_at allowed n bits)) coefficient.old }
{
    let t = Table {
        alphabet,
        offset,
        entries,
    };
    boundary::number(
        image_lookup::lookup_at(image, t, boundary::index(allowed, n, bits)),
        coefficient,
    )
}

// The image of contents and bodies, which are joined, and how many bytes it has: 11 where the two joined are refused; 8 if the lent image is shorter.
#[unsafe(no_mangle)]
pub extern "C" fn gudrenoss_image_write(
    contents: &[u8],
    bodies: &[u8],
    image: &mut [u8],
    written: &mut u64,
) -> Status
    ensures back { result ≡ status (places_of (write_says contents.now bodies.now (length image.old))) }
    ensures written { written.new ≡ stored itself (places_of (write_says contents.now bodies.now (length image.old))) written.old }
    ensures holds { image.new ≡ after (write_says contents.now bodies.now (length image.old)) image.old }
{
    boundary::number(image_writing::write(contents, bodies, image), written)
}

// The state before the first piece, whatever the variables held. Never refused.
#[unsafe(no_mangle)]
pub extern "C" fn gudrenoss_pieces_start(
    bytes: &mut [u8; 772],
    seen: &mut u64,
    state: &mut u64,
    at: &mut u64,
) -> Status
    ensures back { result ≡ answered }
    ensures bytes { bytes.new ≡ start_of.bytes }
    ensures seen { seen.new ≡ start_of.seen }
    ensures state { state.new ≡ code_of start_of.verdict }
    ensures at { at.new ≡ number_in start_of.verdict }
{
    let _told = pieces_lent::start(bytes, seen, state, at);
    boundary::answer()
}

// The state after one more piece. Never refused: once a verdict is told nothing changes any more.
#[unsafe(no_mangle)]
pub extern "C" fn gudrenoss_pieces_feed(
    bytes: &mut [u8; 772],
    seen: &mut u64,
    state: &mut u64,
    at: &mut u64,
    piece: &[u8],
) -> Status
    ensures back { result ≡ answered }
    ensures bytes { bytes.new ≡ (fed (state_at bytes.old seen.old state.old at.old) piece.now).bytes }
    ensures seen { seen.new ≡ (fed (state_at bytes.old seen.old state.old at.old) piece.now).seen }
    ensures state { state.new ≡ code_of (fed (state_at bytes.old seen.old state.old at.old) piece.now).verdict }
    ensures at { at.new ≡ number_in (fed (state_at bytes.old seen.old state.old at.old) piece.now).verdict }
{
    let _told = pieces_lent::feed(bytes, seen, state, at, piece);
    boundary::answer()
}

// The state after the end of the image. Never refused.
#[unsafe(no_mangle)]
pub extern "C" fn gudrenoss_pieces_end(
    bytes: &mut [u8; 772],
    seen: &mut u64,
    state: &mut u64,
    at: &mut u64,
) -> Status
    ensures back { result ≡ answered }
    ensures bytes { bytes.new ≡ (closed (state_at bytes.old seen.old state.old at.old)).bytes }
    ensures seen { seen.new ≡ (closed (state_at bytes.old seen.old state.old at.old)).seen }
    ensures state { state.new ≡ code_of (closed (state_at bytes.old seen.old state.old at.old)).verdict }
    ensures at { at.new ≡ number_in (closed (state_at bytes.old seen.old state.old at.old)).verdict }
{
    let _told = pieces_lent::end(bytes, seen, state, at);
    boundary::answer()
}

// The verdict of a state, by two of its variables: whether it is open, and how many tables the image has, 0 while it is; 11 where it is bad.
#[unsafe(no_mangle)]
pub extern "C" fn gudrenoss_pieces_verdict(
    state: u64,
    at: u64,
    still: &mut bool,
    tables: &mut u64,
) -> Status
    ensures back { result ≡ status (told_says (verdict_at state at)) }
    ensures still { still.new ≡ stored still_open (told_says (verdict_at state at)) still.old }
    ensures tables { tables.new ≡ stored tables_told (told_says (verdict_at state at)) tables.old }
{
    match pieces_lent::verdict(state, at) {
        Verdict::Open => {
            *still = true;
            *tables = 0;
            boundary::answer()
        }
        Verdict::Good(t) => {
            *still = false;
            *tables = t;
            boundary::answer()
        }
        Verdict::Bad(place) => boundary::refused(Refusal::BadImage(place)),
    }
}
