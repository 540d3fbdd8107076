// Shapes (document 01, "Shapes, digit words, exponents", as 02, section 4, amends it): a shape is a lent list of at most 16 radices, axis 0 least significant. Counting, the
// number of a digit tuple and the tuple of a number. Strides and corners are `cartesian_strides`'s.
#![tactic(auto)]

ghost use Rattle.std.specs.Prelude.{◌≡◌, false, ◌++◌, ◌+◌, ◌*◌, ◌^◌, ◌<◌, ◌≤◌, leb, length, drop};
ghost use Rattle.positional.specs.Positional.{product as product_of, Digits, positional_value, digits_of};
ghost use Rattle.answers.specs.Says.{answer_says, places_of, after};
ghost use Rattle.cartesian.specs.Checks.{number_says, within as within_of};
ghost use Rattle.cartesian.specs.Rules.{shape_count_says, linearize_says, delinearize_says};

use answers::Refusal;

// Whether a times b is 2^64 or more. The product is not formed.
pub fn exceeds(a: u64, b: u64) -> bool
    ensures { result ≡ leb (2 ^ 64) (a * b) }
{
    if a == 0 {
        return false;
    }
    u64::MAX / a < b
}

// The product of the radices, where that of those from an axis up is 2^64 or more: 0 if a radix below is 0, and otherwise 9.
fn past(radices: &[u64], from: usize) -> Result<u64, Refusal>
    requires { (from ≤ length radices.now) × (2 ^ 64 ≤ product_of (drop from radices.now)) }
    ensures { answer_says result ≡ number_says (product_of radices.now) }
{
    for r in &radices[..from] {
        if *r == 0 {
            return Ok(0);
        }
    }
    Err(Refusal::TooBig)
}

// The product of the radices, from the last down: 9 if it is 2^64 or more.
fn size(radices: &[u64]) -> Result<u64, Refusal>
    ensures { answer_says result ≡ number_says (product_of radices.now) }
{
    let mut product: u64 = 1;
    for i in (0..radices.len()).rev() {
        let r = radices[i];
        if exceeds(product, r) {
            return past(radices, i);
        }
        product *= r;
    }
    Ok(product)
}

// How many digit tuples a shape has: 1 if it has more than 16 axes; 9.
pub fn shape_count(radices: &[u64]) -> Result<u64, Refusal>
    ensures { answer_says result ≡ shape_count_says radices.now }
{
    if 16 < radices.len() {
        return Err(Refusal::TooWide);
    }
    size(radices)
}

// Whether every digit is below its radix.
fn within(radices: &[u64], digits: &[u64]) -> bool
    requires { length digits.now ≡ length radices.now }
    ensures { result ≡ within_of radices.now digits.now }
{
    for (i, r) in radices.iter().enumerate() {
        if *r <= digits[i] {
            return false;
        }
    }
    true
}

// The number that has the digits, from the highest digit down.
fn number(radices: &[u64], digits: &[u64]) -> u64
    requires { Digits radices.now digits.now × (product_of radices.now < 2 ^ 64) }
    ensures { result ≡ positional_value radices.now digits.now }
{
    let mut above: u64 = 0;
    for i in (0..radices.len()).rev() {
        above = above * radices[i] + digits[i];
    }
    above
}

// The number of a digit tuple: 1; 8 if there are not as many digits as radices; 7 if a digit is not below its radix; 9.
pub fn linearize(radices: &[u64], digits: &[u64]) -> Result<u64, Refusal>
    ensures { answer_says result ≡ linearize_says radices.now digits.now }
{
    if 16 < radices.len() {
        return Err(Refusal::TooWide);
    }
    if digits.len() != radices.len() {
        return Err(Refusal::Shape);
    }
    if !within(radices, digits) {
        return Err(Refusal::Outside);
    }
    size(radices)?;
    Ok(number(radices, digits))
}

// Writes the digits of x, the lowest first.
fn write_digits(radices: &[u64], x: u64, out: &mut [u64])
    requires { (x < product_of radices.now) × (length radices.now ≤ length out.old) }
    ensures { out.new ≡ digits_of radices.now x ++ drop (length (digits_of radices.now x)) out.old }
{
    let mut left = x;
    for (i, r) in radices.iter().enumerate() {
        out[i] = left % *r;
        left /= *r;
    }
}

// The digit tuple of a number, written into a lent output: 1, 9; 3 if the number is not below the count; 8. The answer is how many places are written.
pub fn delinearize(radices: &[u64], x: u64, out: &mut [u64]) -> Result<u64, Refusal>
    ensures says { answer_says result ≡ places_of (delinearize_says radices.now x (length out.old)) }
    ensures holds { out.new ≡ after (delinearize_says radices.now x (length out.old)) out.old }
{
    let count = shape_count(radices)?;
    if count <= x {
        return Err(Refusal::NoSuchRank);
    }
    if out.len() < radices.len() {
        return Err(Refusal::Shape);
    }
    write_digits(radices, x, out);
    Ok(radices.len() as u64)
}
