// The search for a number by halving its column of Pascal's triangle (document 01, "Terms and their order"): the last row that holds at most what is left.
// A window is n rows, those from b + j n up; one comparison, with the row in its middle, leaves half of it.
#![tactic(auto)]

ghost use Rattle.std.specs.Prelude.{◌≡◌, ◌+◌, ◌*◌, ◌<◌, ◌≤◌};
ghost use Rattle.pascal.specs.Row.{entry};
ghost use Rattle.halving.specs.Search.{value, Sought, Among, Taken};

// The window of the n rows from b up, where the numbers sought are below b + n; row b holds c.
pub fn rows(b: u64, n: u64, c: u64, k: u64, s: u64, r: u64, a: u64) -> u64
    requires { Sought 64 k s r a × (c ≡ entry b k) × (b + n ≡ s) × (c ≤ r) }
    ensures { Among b k r result n }
{
    0
}

// The row in which the upper half of a window of n and n rows begins.
pub fn middle(b: u64, n: u64, j: u64, k: u64, r: u64) -> u64
    requires { Among b k r j (n + n) }
    ensures { (result ≡ b + (j * (n + n) + n)) × (result ≤ 64) }
{
    b + (j * (n + n) + n)
}

// The half in which the row is, of a window of n and n rows; c stands in the row t in which its upper half begins.
pub fn half(b: u64, n: u64, j: u64, t: u64, c: u64, k: u64, r: u64) -> u64
    requires { Among b k r j (n + n) × (t ≡ b + (j * (n + n) + n)) × (c ≡ entry t k) × (0 < n) }
    ensures { Among b k r result n }
{
    if c <= r { j + j + 1 } else { j + j }
}

// The row is found, t, and holds c: its number joins those of a.
pub fn with(b: u64, j: u64, t: u64, c: u64, k: u64, s: u64, r: u64, a: u64) -> u64
    requires { Sought 64 k s r a × Among b k r j 1 × (t ≡ b + j) × (c ≡ entry t k) × (0 < k) }
    ensures { Taken 64 k s r a c result }
{
    a + (1u64 << t)
}

// The numbers sought are below h too, since row h holds c, and that is more than r.
pub fn below(h: u64, c: u64, k: u64, s: u64, r: u64, a: u64) -> u64
    requires { Sought 64 k s r a × (c ≡ entry h k) × (h ≤ s) × (r < c) }
    ensures { Sought 64 k h r result × (result ≡ a) }
{
    a
}

// The one number of rank r is r.
pub fn last(s: u64, r: u64, a: u64) -> u64
    requires { Sought 64 1 s r a }
    ensures { result ≡ a + value 1 r }
{
    a + (1u64 << r)
}

// The search for a set of k numbers begins, with no number found; k is j, and h is not below s.
pub fn begun(h: u64, j: u64, k: u64, s: u64, r: u64) -> u64
    requires { (k ≡ j) × (s ≤ h) × (h ≤ 64) × (r < entry s k) }
    ensures { Sought 64 j h r result × (result ≡ 0) }
{
    0
}

// The set x of j numbers is that of k numbers, since k is j.
pub fn ended(x: u64, j: u64, k: u64, r: u64) -> u64
    requires { (x ≡ 0 + value j r) × (k ≡ j) }
    ensures { result ≡ value k r }
{
    x
}

// The set of no numbers.
pub fn empty(k: u64, r: u64) -> u64
    requires { k ≡ 0 }
    ensures { result ≡ value k r }
{
    0
}
