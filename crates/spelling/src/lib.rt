// Bytes and signed numbers as text (docs/RULES.md, section 13). A byte is two hex digits in lower case, and no bytes at all are `-`; a signed
// number is decimal, with `-` in front where it is negative.
#![tactic(auto)]

ghost use Rattle.std.specs.Prelude.{◌≡◌, true, ◌-◌, ◌/◌, ◌%◌, ◌^◌, ◌≤◌, ◌<◌, length, pos, negsuc};
ghost use Rattle.text.specs.Text.{Put};
ghost use Rattle.spelling.specs.Hex.{digit_text, HexDigit, ByteOf, AllDigits, IsBytes, bytes_text, BytesIn};
ghost use Rattle.spelling.specs.Signed.{ReadsSigned, size_of};

// The value of a hex digit in lower case, and 16 of any other byte.
fn digit(b: u8) -> u8
    ensures { HexDigit b result }
{
    if b < b'0' {
        return 16;
    }
    if b <= b'9' {
        return b - b'0';
    }
    if b < b'a' {
        return 16;
    }
    if b <= b'f' {
        return b - 87;
    }
    16
}

// Whether every byte of a text is a hex digit.
fn all_digits(text: &[u8]) -> bool
    ensures { (result ≡ true → AllDigits text.now) × (AllDigits text.now → result ≡ true) }
{
    for b in text {
        if digit(*b) > 15 {
            return false;
        }
    }
    true
}

// Whether a text writes bytes.
pub fn is_bytes(text: &[u8]) -> bool
    ensures { (result ≡ true → IsBytes text.now) × (IsBytes text.now → result ≡ true) }
{
    if check::same(text, b"-") {
        return true;
    }
    if text.len() == 0 {
        return false;
    }
    if text.len() % 2 != 0 {
        return false;
    }
    all_digits(text)
}

// The byte that two hex digits write, and 0 where one of them is none.
fn byte(high: u8, low: u8) -> u8
    ensures { ByteOf high low result }
{
    let h = digit(high);
    if h > 15 {
        return 0;
    }
    let l = digit(low);
    if l > 15 {
        return 0;
    }
    16 * h + l
}

// The bytes that a text writes, into the first places of a lent buffer that holds them: answers how many they are.
pub fn bytes(text: &[u8], out: &mut [u8]) -> usize
    ensures { BytesIn text.now out.old out.new result }
{
    let n = out.len().min(text.len() / 2);
    for i in 0..n {
        out[i] = byte(text[2 * i], text[2 * i + 1]);
    }
    n
}

// The hex digit of a number below 16.
fn digit_of(d: u8) -> u8
    requires { d < 16 }
    ensures { result ≡ digit_text d }
{
    if d < 10 {
        return 48 + d;
    }
    87 + d
}

// The hex digit of the upper half of a byte.
fn high(b: u8) -> u8
    ensures { result ≡ digit_text (b / 16) }
{
    digit_of(b / 16)
}

// The hex digit of its lower half.
fn low(b: u8) -> u8
    ensures { result ≡ digit_text (b % 16) }
{
    digit_of(b % 16)
}

// Puts the text of bytes into a lent text from place `at` on, as `text::put` does.
pub fn put_bytes(out: &mut [u8], at: usize, bytes: &[u8]) -> usize
    ensures { Put out.old at (bytes_text bytes.now) out.new result }
{
    if bytes.len() == 0 {
        return text::put_byte(out, at, b'-');
    }
    if at > out.len() {
        return out.len();
    }
    if bytes.len() > (out.len() - at) / 2 {
        return at;
    }
    for (i, b) in bytes.iter().enumerate() {
        out[at + 2 * i] = high(*b);
        out[at + (2 * i + 1)] = low(*b);
    }
    at + 2 * bytes.len()
}

// The number n.
fn positive(n: u64) -> i64
    requires { n < 2 ^ 63 }
    ensures { result ≡ pos n }
{
    n as i64
}

// The number -n.
fn negative(n: u64) -> i64
    requires { (0 < n) × (n ≤ 2 ^ 63) }
    ensures { result ≡ negsuc (n - 1) }
{
    -1 - ((n - 1) as i64)
}

// The signed number that a word writes in decimal.
pub fn read_signed(word: &[u8]) -> Option<i64>
    ensures { ReadsSigned word.now result }
{
    if word.len() == 0 {
        return None;
    }
    if word[0] != b'-' {
        let n = text::read_number(word)?;
        if n > 9223372036854775807 {
            return None;
        }
        return Some(positive(n));
    }
    let n = text::read_number(&word[1..])?;
    if n == 0 {
        return None;
    }
    if n > 9223372036854775808 {
        return None;
    }
    Some(negative(n))
}

// How far a signed number is from 0.
fn size(z: i64) -> u64
    ensures { result ≡ size_of z }
{
    if z < 0 {
        return (-1 - z) as u64 + 1;
    }
    z as u64
}

// Puts a signed number in decimal into a lent text from place `at` on. Where there is no room for it, some of it may be written.
pub fn put_signed(out: &mut [u8], at: usize, z: i64) -> usize {
    if z < 0 {
        let next = text::put_byte(out, at, b'-');
        return text::put_number(out, next, size(z));
    }
    text::put_number(out, at, size(z))
}
