// Numbers of four and of eight bytes in a slice, the lowest byte first (02, section 1: "little-endian").
#![tactic(auto)]

ghost use Rattle.std.specs.Prelude.{◌≡◌, ◌+◌, ◌<◌, ◌≤◌, ◌^◌, length};
ghost use Rattle.little_endian.specs.Bytes.{number_at};

// A byte as a number.
pub fn wide(b: u8) -> u64
    ensures { (result ≡ b) × (result < 256) }
{
    b as u64
}

// The number of four bytes from place `at`.
pub fn four(s: &[u8], at: u64) -> u64
    requires { at + 4 ≤ length s.now }
    ensures { (result ≡ number_at s.now at 4) × (result < 2 ^ 32) }
{
    let i = at as usize;
    let a = wide(s[i]);
    let b = wide(s[i + 1]);
    let c = wide(s[i + 2]);
    let d = wide(s[i + 3]);
    a + 256 * (b + 256 * (c + 256 * d))
}

// The number of eight bytes from place `at`.
pub fn eight(s: &[u8], at: u64) -> u64
    requires { at + 8 ≤ length s.now }
    ensures { result ≡ number_at s.now at 8 }
{
    let i = at as usize;
    let a = wide(s[i]);
    let b = wide(s[i + 1]);
    let c = wide(s[i + 2]);
    let d = wide(s[i + 3]);
    let e = wide(s[i + 4]);
    let f = wide(s[i + 5]);
    let g = wide(s[i + 6]);
    let h = wide(s[i + 7]);
    a + 256 * (b + 256 * (c + 256 * (d + 256 * (e + 256 * (f + 256 * (g + 256 * h))))))
}
