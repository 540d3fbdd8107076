// A float as text (docs/RULES.md, section 13): the sixteen hex digits of its bits in lower case, the most significant first.
#![tactic(auto)]

use little_endian::wide;

// The number of eight bytes, the highest first.
fn highest_first(s: &[u8; 8]) -> u64 {
    let a = wide(s[0]);
    let b = wide(s[1]);
    let c = wide(s[2]);
    let d = wide(s[3]);
    let e = wide(s[4]);
    let f = wide(s[5]);
    let g = wide(s[6]);
    let h = wide(s[7]);
    h + 256 * (g + 256 * (f + 256 * (e + 256 * (d + 256 * (c + 256 * (b + 256 * a))))))
}

// The bits that a word writes: exactly sixteen digits.
pub fn read(word: &[u8]) -> Option<u64> {
    if word.len() != 16 {
        return None;
    }
    if !spelling::is_bytes(word) {
        return None;
    }
    let mut eight = [0u8; 8];
    spelling::bytes(word, &mut eight);
    Some(highest_first(&eight))
}

// The byte of a number above which are the higher ones.
fn byte(n: u64) -> u8 {
    (n % 256) as u8
}

// Puts the digits of bits into a lent text from place `at` on.
pub fn put_bits(out: &mut [u8], at: usize, b: u64) -> usize {
    let eight = [
        byte(b / 72057594037927936),
        byte(b / 281474976710656),
        byte(b / 1099511627776),
        byte(b / 4294967296),
        byte(b / 16777216),
        byte(b / 65536),
        byte(b / 256),
        byte(b),
    ];
    spelling::put_bytes(out, at, &eight)
}

// Puts the digits of a float.
pub fn put(out: &mut [u8], at: usize, x: f64) -> usize {
    put_bits(out, at, rounded::bits(x))
}
