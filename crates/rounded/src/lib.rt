// Numbers of f64 (02, section 3): which are finite, and their bit patterns, for every f64 and every pattern.
#![tactic(auto)]

ghost use Rattle.std.specs.Prelude.{◌≡◌};
ghost use Rattle.std.specs.Float.{binary64};
ghost use Rattle.std.specs.Float.Ieee.{of_bits, to_bits};
ghost use Rattle.rounded.specs.Finite.{finite};

// Whether x is finite: below the one infinity and above the other. No comparison with what is no number holds.
pub fn is_finite(x: f64) -> bool
    ensures { result ≡ finite x }
{
    let most = f64::from_bits(0x7ff0_0000_0000_0000);
    if x < most {
        return -most < x;
    }
    false
}

// The f64 of a bit pattern. Every pattern of a NaN is the one NaN.
pub fn of_bits(b: u64) -> f64
    ensures { result ≡ of_bits binary64 b }
{
    if 0x7ff0_0000_0000_0000 < b % 0x8000_0000_0000_0000 {
        return 0.0 / 0.0;
    }
    f64::from_bits(b)
}

// The bit pattern of x. That of NaN is the one with the exponent's digits and the highest of the others set.
pub fn bits(x: f64) -> u64
    ensures { result ≡ to_bits binary64 x }
{
    if x != x {
        return 0x7ff8_0000_0000_0000;
    }
    f64::to_bits(x)
}
