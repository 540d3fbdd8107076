// The strides of a shape and the offset of a corner (document 01, "Shapes, digit words, exponents", as 02, section 4, amends it): a shape is a lent list of at most 16
// radices, axis 0 least significant.
#![tactic(auto)]

ghost use Rattle.std.specs.Prelude.{◌≡◌, false, ◌++◌, ℕ, ◌+◌, ◌*◌, ◌-◌, ◌<◌, ◌≤◌, length, drop};
ghost use Rattle.positional.specs.Positional.{strides as strides_of};
ghost use Rattle.answers.specs.Says.{answer_says, places_of, after};
ghost use Rattle.cartesian.specs.Checks.{number_says};
ghost use Rattle.cartesian_strides.specs.Partial.{too_big};
ghost use Rattle.cartesian_strides.specs.Rules.{strides_says, corner_says};

use answers::Refusal;

// Whether the product of the first j radices is 2^64 or more for some j up to the given one.
fn too_big(radices: &[u64], upto: usize) -> bool
    requires { upto ≤ length radices.now }
    ensures { result ≡ too_big radices.now upto }
{
    let mut stride: u64 = 1;
    for r in &radices[..upto] {
        if cartesian::exceeds(stride, *r) {
            return true;
        }
        stride *= *r;
    }
    false
}

// Writes the strides. The last radix is in none of them.
fn write_strides(radices: &[u64], out: &mut [u64])
    requires { (too_big radices.now (length radices.now - 1) ≡ false) × (length radices.now ≤ length out.old) }
    ensures { out.new ≡ strides_of radices.now ++ drop (length (strides_of radices.now)) out.old }
{
    let mut stride: u64 = 1;
    for (i, r) in radices.iter().enumerate() {
        out[i] = stride;
        if i + 1 < radices.len() {
            stride *= *r;
        }
    }
}

// One less than n; 0 for 0.
fn one_less(n: usize) -> usize
    ensures { result ≡ n - 1 }
{
    if n == 0 { 0 } else { n - 1 }
}

// The strides of a shape, written into a lent output: 1; 9 by the products up to one less than all radices; 8. The answer is how many places are written.
pub fn strides(radices: &[u64], out: &mut [u64]) -> Result<u64, Refusal>
    ensures says { answer_says result ≡ places_of (strides_says radices.now (length out.old)) }
    ensures holds { out.new ≡ after (strides_says radices.now (length out.old)) out.old }
{
    let n = radices.len();
    if 16 < n {
        return Err(Refusal::TooWide);
    }
    if too_big(radices, one_less(n)) {
        return Err(Refusal::TooBig);
    }
    if out.len() < n {
        return Err(Refusal::Shape);
    }
    write_strides(radices, out);
    Ok(n as u64)
}

// The sum of two numbers, each of which may be 2^64 or more: refusal 9 stands for that.
fn plus(a: Result<u64, Refusal>, b: Result<u64, Refusal>) -> Result<u64, Refusal>
    ensures { (m n : ℕ) → answer_says a ≡ number_says m → answer_says b ≡ number_says n → answer_says result ≡ number_says (m + n) }
{
    let x = a?;
    let y = b?;
    if u64::MAX - x < y {
        return Err(Refusal::TooBig);
    }
    Ok(x + y)
}

// Such a number times a radix: 0 times it is 0.
fn times(a: Result<u64, Refusal>, r: u64) -> Result<u64, Refusal>
    ensures { (n : ℕ) → answer_says a ≡ number_says n → answer_says result ≡ number_says (n * r) }
{
    if r == 0 {
        return Ok(0);
    }
    let x = a?;
    if cartesian::exceeds(x, r) {
        return Err(Refusal::TooBig);
    }
    Ok(x * r)
}

// The offset of a corner, the sum of the strides of the chosen axes: 1; 7 if an axis is not below the number of axes; 9 if the exact sum is 2^64 or more.
pub fn corner(radices: &[u64], axes: u64) -> Result<u64, Refusal>
    ensures { answer_says result ≡ corner_says radices.now axes }
{
    if 16 < radices.len() {
        return Err(Refusal::TooWide);
    }
    if bits::reaches(axes, radices.len() as u64) {
        return Err(Refusal::Outside);
    }
    let mut sum = Ok(0);
    let mut stride = Ok(1);
    let mut left = axes;
    for r in radices {
        if left % 2 == 1 {
            sum = plus(sum, stride);
        }
        stride = times(stride, *r);
        left /= 2;
    }
    sum
}
