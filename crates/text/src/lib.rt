// Text as bytes in lent slices: words and numbers are read from a slice and written into one. The programs are thin over it.
#![tactic(auto)]

ghost use Rattle.std.specs.Prelude.{◌≡◌, [], ◌∷◌, ◌<◌, length, drop};
ghost use Rattle.text.specs.Text.{Found, Put};
ghost use Rattle.text.specs.Numeral.{Numeral, Reads, PutNumeral};
ghost use Rattle.text.specs.Names.{Names};

use words::Family;

// The first place at or after `from` where b stands in s, or the length of s if there is none.
pub fn find(s: &[u8], from: usize, b: u8) -> usize
    ensures { Found s.now from b result }
{
    for i in from..s.len() {
        if s[i] == b {
            return i;
        }
    }
    s.len()
}

fn wide(x: u8) -> u64
    ensures { result ≡ x }
{
    x as u64
}

// The number that a word writes in decimal: below 2^64, and with no zero in front (01, "in decimal below 2^64 without leading zeros").
pub fn read_number(word: &[u8]) -> Option<u64>
    ensures { Reads word.now result }
{
    if word.len() == 0 {
        return None;
    }
    if word[0] == b'0' {
        if word.len() > 1 {
            return None;
        }
    }
    let mut n = 0u64;
    for b in word {
        if *b < b'0' {
            return None;
        }
        if *b > b'9' {
            return None;
        }
        let d = wide(*b) - 48;
        if n > (18446744073709551615 - d) / 10 {
            return None;
        }
        n = n * 10 + d;
    }
    Some(n)
}

// The family that a word names.
pub fn family(name: &[u8]) -> Option<Family>
    ensures { Names name.now result }
{
    if check::same(name, b"forbidden") {
        return Some(Family::Forbidden);
    }
    if check::same(name, b"allowed") {
        return Some(Family::Allowed);
    }
    None
}

// Puts a byte string into a lent text from place `at` on, and answers the place after it. One that does not fit is not written, and
// the answer is then where it would have begun.
pub fn put(out: &mut [u8], at: usize, bytes: &[u8]) -> usize
    ensures { Put out.old at bytes.now out.new result }
{
    if at > out.len() {
        return out.len();
    }
    if bytes.len() > out.len() - at {
        return at;
    }
    let end = at + bytes.len();
    out[at..end].copy_from_slice(bytes);
    end
}

// Puts one byte into a lent text at place `at`, as `put` does.
pub fn put_byte(out: &mut [u8], at: usize, b: u8) -> usize
    ensures { Put out.old at (b ∷ []) out.new result }
{
    put(out, at, &[b])
}

// Spells n in decimal at the end of `text`, whose 20 places hold every number below 2^64, and answers the place of its first digit.
fn spell(n: u64, text: &mut [u8]) -> usize
    requires { length text.old ≡ 20 }
    ensures { (result < 20) × Numeral (drop result text.new) n }
{
    text[19] = 48 + (n % 10) as u8;
    let mut rest = n / 10;
    for i in (0..19).rev() {
        if rest == 0 {
            return i + 1;
        }
        text[i] = 48 + (rest % 10) as u8;
        rest /= 10;
    }
    0
}

// Puts a number in decimal into a lent text from place `at` on, as `put` does.
pub fn put_number(out: &mut [u8], at: usize, n: u64) -> usize
    ensures { PutNumeral out.old at n out.new result }
{
    let mut text = [0u8; 20];
    let from = spell(n, &mut text);
    put(out, at, &text[from..])
}
