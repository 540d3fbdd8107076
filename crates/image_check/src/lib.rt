// The check of a coefficient table image (02, section 1): 11, with the offset of the first wrong field in reading order, or the number of tables.
#![tactic(auto)]

ghost use Rattle.std.specs.Prelude.{◌≡◌, length};
ghost use Rattle.answers.specs.Says.{answer_says};
ghost use Rattle.image_rules.specs.Image.{check_says, image_says};
ghost use Rattle.image_row.specs.Steps.{Covers};

use answers::Refusal;
use little_endian::{four, wide};

// The verdict on an image of size bytes, of which s has the first 772, or all if it is shorter.
pub fn check_within(s: &[u8], size: u64) -> Result<u64, Refusal>
    requires { Covers (length s.now) size }
    ensures { answer_says result ≡ check_says s.now size }
{
    if size < 4 {
        return image_row::bad(size);
    }
    let t = four(s, 0);
    if t == 0 {
        return image_row::bad(0);
    }
    if 64 < t {
        return image_row::bad(0);
    }
    let mut used = [false; 130];
    let mut place = 4 + 12 * t;
    for i in 0..t {
        let at = 4 + 12 * i;
        let c = image_row::row(s, size, at, place, &used)?;
        let j = at as usize;
        used[(65 * wide(s[j]) + wide(s[j + 1])) as usize] = true;
        place += 8 * c;
    }
    if size < place {
        return image_row::bad(size);
    }
    if place < size {
        return image_row::bad(place);
    }
    Ok(t)
}

// The check of a whole image: 11 with the offset of the first wrong field; otherwise the number of tables.
pub fn check(image: &[u8]) -> Result<u64, Refusal>
    ensures { answer_says result ≡ image_says image.now }
{
    check_within(image, image.len() as u64)
}
