// Permutations of up to 64 entries: the record, its checks, and the image of a place (document 01, "Permutations"; document 02, sections 6 and 7). Inverse,
// composition and sign are `permutation_group`'s; rank and order, which end at twenty entries, `permutation_order`'s.
#![tactic(auto)]

ghost use Rattle.std.specs.Prelude.{◌≡◌, ◌≤◌, length, take, drop};
ghost use Rattle.answers.specs.Says.{answer_says};
ghost use Rattle.arrangements.specs.Permutation.{is_permutation};
ghost use Rattle.permutation.specs.Record.{capacity, zeros_only, arrangement_of, verdict_says};
ghost use Rattle.permutation.specs.Rules.{is_good, taken_arrangement, image_says};

use answers::Refusal;

// How many entries a record holds, and so the greatest length.
pub const CAPACITY: usize = 64;

// A permutation of len entries: the image of place i is entries[i]. Past the length stand zeros, so that a permutation has one record.
#[repr(C)]
#[derive(Clone, Copy)]
pub struct Permutation {
    pub entries: [u64; CAPACITY],
    pub len: u64,
}

// Whether the first n entries are a bijection of 0 .. n-1: each is held against the set of those seen.
fn is_permutation(entries: &[u64; CAPACITY], n: u64) -> bool
    requires { (n ≤ capacity) × (length entries.now ≡ capacity) }
    ensures { result ≡ is_permutation (take n entries.now) }
{
    let mut seen = 0u64;
    for i in 0..n {
        let x = entries[i as usize];
        if x >= n {
            return false;
        }
        let one = 1u64 << x;
        if seen & one != 0 {
            return false;
        }
        seen = seen | one;
    }
    true
}

// Whether nothing but zeros stands past the first n entries.
fn nothing_past(entries: &[u64; CAPACITY], n: u64) -> bool
    requires { (n ≤ capacity) × (length entries.now ≡ capacity) }
    ensures { result ≡ zeros_only (drop n entries.now) }
{
    let mut all = 0u64;
    for x in &entries[n as usize..] {
        all = all | *x;
    }
    if all == 0 {
        return true;
    }
    false
}

// Whether these entries with the length n are the record of a permutation. It is judged here and nowhere else.
pub fn is_good(entries: &[u64; CAPACITY], n: u64) -> bool
    requires { (n ≤ capacity) × (length entries.now ≡ capacity) }
    ensures { result ≡ is_good entries.now n }
{
    if !is_permutation(entries, n) {
        return false;
    }
    nothing_past(entries, n)
}

// 1 if the length passes the capacity, 10 if it is not the record of a permutation.
pub fn checked(p: Permutation) -> Result<(), Refusal>
    ensures { verdict_says result (arrangement_of p) ≡ taken_arrangement p }
{
    let n = p.len;
    if n > CAPACITY as u64 {
        return Err(Refusal::TooWide);
    }
    let entries = p.entries;
    if is_good(&entries, n) {
        return Ok(());
    }
    Err(Refusal::NotAPermutation)
}

// The image of place i: 1 and 10 of the record, then 7 if there is no such place.
pub fn image(p: Permutation, i: u64) -> Result<u64, Refusal>
    ensures { answer_says result ≡ image_says p i }
{
    checked(p)?;
    let n = p.len;
    if i >= n {
        return Err(Refusal::Outside);
    }
    Ok(p.entries[i as usize])
}
