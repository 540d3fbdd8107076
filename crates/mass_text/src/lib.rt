// The lines of the program `mass` (docs/RULES.md, section 22): a line names the frame of the pressure, the pressure, the frame of the temperature and the temperature, and what
// is written is the mass of the frame or why there is none. A reading is a decimal number, or `0x` and the sixteen digits of its bits.
#![tactic(auto)]

use answers::Refusal;
use little_endian::wide;
use mass::FrameRefusal;

// What a line says: two readings, each with its frame.
#[derive(Clone, Copy)]
pub struct Frames {
    pub pressure_frame: u64,
    pub pressure: f64,
    pub temperature_frame: u64,
    pub temperature: f64,
}

// ---- readings

// The number that digits write behind those of n, where it is at most 2^53: every such number is a float.
fn digits(n: u64, text: &[u8]) -> Option<u64> {
    let mut m = n;
    for b in text {
        if *b < b'0' {
            return None;
        }
        if *b > b'9' {
            return None;
        }
        let d = wide(*b) - 48;
        if m > (9007199254740992 - d) / 10 {
            return None;
        }
        m = m * 10 + d;
    }
    Some(m)
}

// Ten to the power k, which is a float for every k up to 22.
fn ten_to(k: usize) -> f64 {
    let mut power = 1.0;
    for _ in 0..k {
        power = power * 10.0;
    }
    power
}

// The float nearest to n by ten to the power k: n and the power are floats, so that one division rounds once.
fn scaled(n: u64, k: usize) -> f64 {
    std::num::nearest_u64_to_f64(n) / ten_to(k)
}

// A number with a point at place p: at most 22 digits behind it.
fn with_point(word: &[u8], p: usize) -> Option<f64> {
    if p >= word.len() {
        return None;
    }
    let places = word.len() - p - 1;
    if places == 0 {
        return None;
    }
    if places > 22 {
        return None;
    }
    let whole = digits(0, &word[0..p])?;
    let n = digits(whole, &word[p + 1..])?;
    Some(scaled(n, places))
}

// A decimal number without a sign: digits, and perhaps a point and more digits.
fn unsigned(word: &[u8]) -> Option<f64> {
    let p = text::find(word, 0, b'.');
    if p == 0 {
        return None;
    }
    if p < word.len() {
        return with_point(word, p);
    }
    let n = digits(0, word)?;
    Some(scaled(n, 0))
}

fn decimal(word: &[u8]) -> Option<f64> {
    if word.len() == 0 {
        return None;
    }
    if word[0] != b'-' {
        return unsigned(word);
    }
    let x = unsigned(&word[1..])?;
    Some(-x)
}

// The reading that a word writes.
pub fn reading(word: &[u8]) -> Option<f64> {
    if word.len() == 18 {
        if check::same(&word[0..2], b"0x") {
            let b = float_text::read(&word[2..])?;
            return Some(rounded::of_bits(b));
        }
    }
    decimal(word)
}

// ---- a line

// A temperature behind the pressure of a frame: the rest of a line.
fn with_temperature(rest: &[u8], a: u64, p: f64) -> Option<Frames> {
    let end = text::find(rest, 0, b' ');
    if end >= rest.len() {
        return None;
    }
    let c = text::read_number(&rest[0..end])?;
    let t = reading(&rest[end + 1..])?;
    Some(Frames {
        pressure_frame: a,
        pressure: p,
        temperature_frame: c,
        temperature: t,
    })
}

// A pressure of a frame, and what follows.
fn with_pressure(rest: &[u8], a: u64) -> Option<Frames> {
    let end = text::find(rest, 0, b' ');
    if end >= rest.len() {
        return None;
    }
    let p = reading(&rest[0..end])?;
    with_temperature(&rest[end + 1..], a, p)
}

// Two readings, each with its frame before it, with single spaces between them.
pub fn parse(line: &[u8]) -> Option<Frames> {
    let end = text::find(line, 0, b' ');
    if end >= line.len() {
        return None;
    }
    let a = text::read_number(&line[0..end])?;
    with_pressure(&line[end + 1..], a)
}

// ---- a mass in decimal

fn digit(n: u64) -> u8 {
    (48 + n % 10) as u8
}

// A number of millionths: the whole ones, a point and six digits.
fn put_millionths(out: &mut [u8], at: usize, n: u64) -> usize {
    let at = text::put_number(out, at, n / 1000000);
    let six = [
        b'.',
        digit(n / 100000),
        digit(n / 10000),
        digit(n / 1000),
        digit(n / 100),
        digit(n / 10),
        digit(n),
    ];
    text::put(out, at, &six)
}

// The digits of a float whose exponent has these bits: 53 where it is not subnormal.
fn significand(b: u64, exponent: u64) -> u64 {
    let low = b % 4503599627370496;
    if exponent == 0 {
        return low;
    }
    low + 4503599627370496
}

// By how many places the digits stand behind the point, less the 23 that millionths take out of it.
fn places(exponent: u64) -> u64 {
    if exponent == 0 {
        return 1051;
    }
    if exponent >= 1052 {
        return 0;
    }
    1052 - exponent
}

// The size of a float below 2^30 in millionths, rounded, the half upwards: of significand m at s places behind the point it is half of one more than twice m times a million by 2^s.
// Twice a million is 15,625 times 2^7; the product with 15,625 is formed in two parts, of which the lower has 16 binary digits.
fn millionths(b: u64) -> u64 {
    let exponent = b / 4503599627370496 % 2048;
    let m = significand(b, exponent);
    let product = m / 65536 * 15625 + m % 65536 * 15625 / 65536;
    let twice = bits::shr_total(product, places(exponent));
    twice / 2 + twice % 2
}

// A mass: in decimal with six places where it is below 2^30 in size, otherwise `large`; and its bits.
fn put_mass(out: &mut [u8], at: usize, x: f64) -> usize {
    let b = rounded::bits(x);
    let at = put_size(out, at, b);
    let at = text::put(out, at, b" 0x");
    float_text::put_bits(out, at, b)
}

fn put_size(out: &mut [u8], at: usize, b: u64) -> usize {
    if b / 4503599627370496 % 2048 >= 1053 {
        return text::put(out, at, b"large");
    }
    put_signed(out, at, b)
}

fn put_signed(out: &mut [u8], at: usize, b: u64) -> usize {
    if b >= 9223372036854775808 {
        let at = text::put_byte(out, at, b'-');
        return put_millionths(out, at, millionths(b));
    }
    put_millionths(out, at, millionths(b))
}

// ---- what is written

// A refusal in words. The temperature's frame is c.
fn put_why(out: &mut [u8], at: usize, e: Refusal, c: u64) -> usize {
    match e {
        Refusal::FramesDiffer => {
            let at = text::put(out, at, b": the temperature is of frame ");
            text::put_number(out, at, c)
        }
        Refusal::BadImage(offset) => {
            let at = text::put(out, at, b": the image is wrong at byte ");
            text::put_number(out, at, offset)
        }
        Refusal::Outside => text::put(
            out,
            at,
            b": a table of the image is not allowed over the alphabet 2",
        ),
        _ => text::put(
            out,
            at,
            b": a reading, a coefficient or the mass is infinite or no number",
        ),
    }
}

fn put_refusal(out: &mut [u8], at: usize, e: Refusal, c: u64) -> usize {
    let at = text::put(out, at, b"refused ");
    let at = text::put_number(out, at, answers::number(e));
    put_why(out, at, e, c)
}

// The line of a frame.
fn put_massed(out: &mut [u8], at: usize, a: u64, c: u64, m: Result<f64, FrameRefusal>) -> usize {
    let at = text::put_number(out, at, a);
    let at = text::put_byte(out, at, b' ');
    match m {
        Ok(x) => put_mass(out, at, x),
        Err(e) => put_refusal(out, at, e.refusal, c),
    }
}

// The line of a line that is none, which is the n-th.
fn put_bad(out: &mut [u8], at: usize, n: u64) -> usize {
    let at = text::put(out, at, b"line ");
    let at = text::put_number(out, at, n);
    text::put(out, at, b": a line is FRAME PRESSURE FRAME TEMPERATURE")
}

// What is written for the n-th line.
pub fn put_answer(out: &mut [u8], at: usize, surface: &[u8], line: &[u8], n: u64) -> usize {
    match parse(line) {
        Some(line) => {
            let a = line.pressure_frame;
            let c = line.temperature_frame;
            let m = mass::mass(surface, a, line.pressure, c, line.temperature);
            put_massed(out, at, a, c, m)
        }
        None => put_bad(out, at, n),
    }
}
