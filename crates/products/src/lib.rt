// A signed number times a multiplicity (document 02, section 10): whether the product is in the range of i64, tested before it is formed, and the product.
#![tactic(auto)]

ghost use Rattle.std.specs.Prelude.{◌≡◌, true, ◌≤◌, pos, ◌*ℤ◌};
ghost use Rattle.products.specs.Range.{inside};

// Whether c times m is in the range: c is held against what m leaves of either end.
fn between_quotients(c: i64, m: u64) -> bool
    requires { (1 ≤ m) × (m ≤ 64) }
    ensures { result ≡ inside (c *ℤ pos m) }
{
    let d = m as i64;
    if i64::MAX / d < c {
        return false;
    }
    if c < i64::MIN / d {
        return false;
    }
    true
}

// The same. What is in the range 64 times is so m times, and that needs no division.
pub fn fits(c: i64, m: u64) -> bool
    requires { (1 ≤ m) × (m ≤ 64) }
    ensures { result ≡ inside (c *ℤ pos m) }
{
    if between_quotients(c, 64) {
        return true;
    }
    between_quotients(c, m)
}

// c times m, which is in the range.
pub fn product(c: i64, m: u64) -> i64
    requires { (m ≤ 64) × (inside (c *ℤ pos m) ≡ true) }
    ensures { result ≡ c *ℤ pos m }
{
    c * (m as i64)
}
