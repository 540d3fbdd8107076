// The reader record (02, section 1): it holds the lent image and the place of its contents list. Anyone may make one.
#![tactic(auto)]

ghost use Rattle.std.specs.Prelude.{◌≡◌};
ghost use Rattle.answers.specs.Says.{answer_says};
ghost use Rattle.image_reading.specs.Reading.{row_says};
ghost use Rattle.image_rules.specs.Image.{image_says};
ghost use Rattle.image_lookup.specs.Lookup.{lookup_says};
ghost use Rattle.image_reader.specs.Placed.{placed};

use answers::{Index, Refusal};
use image_reading::Table;
use words::Family;

// The image, and the place of its contents list.
#[derive(Clone, Copy)]
pub struct Reader<'a> {
    pub image: &'a [u8],
    pub place: u64,
}

// The check with a place: 7 if it is not 0, ahead of everything else.
pub fn check_at(image: &[u8], place: u64) -> Result<u64, Refusal>
    ensures { answer_says result ≡ placed place (image_says image.now) }
{
    if place != 0 {
        return Err(Refusal::Outside);
    }
    image_check::check(image)
}

// The table of a family and a degree with a place: 7 if it is not 0, ahead of everything else.
pub fn row_at(image: &[u8], place: u64, family: Family, k: u64) -> Result<Table, Refusal>
    ensures { answer_says result ≡ placed place (row_says image.now family k) }
{
    if place != 0 {
        return Err(Refusal::Outside);
    }
    image_reading::row(image, family, k)
}

// The lookup with a place: 7 if it is not 0, ahead of everything else, the index's own checks too.
pub fn lookup_at_place(image: &[u8], place: u64, x: Index) -> Result<u64, Refusal>
    ensures { answer_says result ≡ placed place (lookup_says image.now x) }
{
    if place != 0 {
        return Err(Refusal::Outside);
    }
    image_lookup::lookup(image, x)
}

// The check of a record's image.
pub fn check<'a>(r: Reader<'a>) -> Result<u64, Refusal>
    ensures { answer_says result ≡ placed r.entry.place (image_says r.entry.image.now) }
{
    check_at(r.image, r.place)
}

// The table of a family and a degree in a record's image.
pub fn row<'a>(r: Reader<'a>, family: Family, k: u64) -> Result<Table, Refusal>
    ensures { answer_says result ≡ placed r.entry.place (row_says r.entry.image.now family k) }
{
    row_at(r.image, r.place, family, k)
}

// The coefficient of a term in a record's image.
pub fn lookup<'a>(r: Reader<'a>, x: Index) -> Result<u64, Refusal>
    ensures { answer_says result ≡ placed r.entry.place (lookup_says r.entry.image.now x) }
{
    lookup_at_place(r.image, r.place, x)
}
