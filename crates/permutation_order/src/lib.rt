// The colex order of the permutations of up to twenty entries: rank, unrank and successor (document 01, "Permutations"; document 02, section 7; Knuth 7.2.1.2).
// A record may hold longer ones, which are not numbered.
#![tactic(auto)]

ghost use Rattle.std.specs.Prelude.{◌≡◌, ◌+◌, ◌%◌, ◌≤◌, ◌<◌, length};
ghost use Rattle.words.specs.Factorial.{factorial as factorial_of};
ghost use Rattle.answers.specs.Says.{answer_says};
ghost use Rattle.arrangements.specs.Rank.{arrangement_rank, raise, lastly, arrangement_unrank};
ghost use Rattle.arrangements.specs.Step.{FirstFall, FirstGreater, turn, exchange, step};
ghost use Rattle.permutation.specs.Record.{capacity, arrangement_of, record_of, GoodRecord, verdict_says, recorded};
ghost use Rattle.permutation_order.specs.Rules.{longest_numbered, held, numbered as numbered_of, arrangement_rank_says, arrangement_unrank_says, arrangement_successor_says};

use answers::Refusal;
use permutation::{CAPACITY, Permutation};

// The greatest length whose permutations are numbered: 20! is the last factorial that fits.
pub const LONGEST: u64 = 20;

// 1 if the length is above those that are numbered; 1 and 10 of the record.
fn numbered(p: Permutation) -> Result<(), Refusal>
    ensures { verdict_says result (arrangement_of p) ≡ numbered_of p }
{
    let n = p.len;
    if n > LONGEST {
        return Err(Refusal::TooWide);
    }
    permutation::checked(p)
}

// The sum of d_j times j!, where d_j counts the smaller entries left of place j, which are those of the set of the entries seen.
fn weight(p: Permutation) -> u64
    requires { GoodRecord p × (p.len ≤ longest_numbered) }
    ensures { result ≡ arrangement_rank (arrangement_of p) }
{
    let n = p.len;
    let mut seen = 0u64;
    let mut factorial = 1u64;
    let mut sum = 0u64;
    for j in 0..n {
        let x = p.entries[j as usize];
        sum += bits::below(seen, x) * factorial;
        seen += 1u64 << x;
        factorial *= j + 1;
    }
    sum
}

// The rank among the permutations of its length, in colex order: 1 and 10 of the record.
pub fn rank(p: Permutation) -> Result<u64, Refusal>
    ensures { answer_says result ≡ arrangement_rank_says p }
{
    numbered(p)?;
    Ok(weight(p))
}

// x, raised by one from d up: so nothing is d.
fn raised(d: u64, x: u64) -> u64
    requires { x < longest_numbered }
    ensures { result ≡ raise d x }
{
    if x < d {
        return x;
    }
    x + 1
}

// The first n entries, those of a permutation, become those of the one of an entry more whose last is d: from d up they are raised by one to make room for it.
fn make_room(entries: &mut [u64; CAPACITY], n: u64, d: u64)
    requires { GoodRecord (held entries.old n) × (length entries.old ≡ capacity) × (n < longest_numbered) }
    ensures { held entries.new (n + 1) ≡ record_of (lastly d (arrangement_of (held entries.old n))) }
{
    for i in 0..n {
        let x = entries[i as usize];
        entries[i as usize] = raised(d, x);
    }
    entries[n as usize] = d;
}

// The permutation of n entries of rank r, from the digits of r in the factorial number system, the lowest first.
fn unranked(n: u64, r: u64) -> Permutation
    requires { n ≤ longest_numbered }
    ensures { result ≡ record_of (arrangement_unrank n (r % factorial_of n)) }
{
    let mut entries = [0u64; CAPACITY];
    let mut rest = r;
    for j in 0..n {
        let k = j + 1;
        make_room(&mut entries, j, rest % k);
        rest = rest / k;
    }
    Permutation { entries, len: n }
}

// The permutation of n entries of rank r: 1 for n, 3 if there are not so many.
pub fn unrank(n: u64, r: u64) -> Result<Permutation, Refusal>
    ensures { answer_says result ≡ recorded (arrangement_unrank_says n r) }
{
    if n > LONGEST {
        return Err(Refusal::TooWide);
    }
    if r >= count::factorial(n) {
        return Err(Refusal::NoSuchRank);
    }
    Ok(unranked(n, r))
}

// The lowest place whose entry is smaller than the one before it; the length if all entries rise.
fn first_fall(p: Permutation) -> u64
    requires { GoodRecord p }
    ensures { FirstFall p.len (arrangement_of p) result }
{
    let n = p.len;
    for k in 1..n {
        let before = k - 1;
        if p.entries[k as usize] < p.entries[before as usize] {
            return k;
        }
    }
    n
}

// The lowest place below k whose entry is greater than that at k; k if there is none.
fn first_greater(p: Permutation, k: u64) -> u64
    requires { GoodRecord p × (k < p.len) }
    ensures { FirstGreater (arrangement_of p) k result }
{
    let x = p.entries[k as usize];
    for i in 0..k {
        if x < p.entries[i as usize] {
            return i;
        }
    }
    k
}

// Place j, if the places below k are turned round.
fn turned(k: u64, j: u64) -> u64
    ensures { result ≡ turn k j }
{
    if j < k {
        return k - 1 - j;
    }
    j
}

// Place j, if the places i and k change places.
fn exchanged(i: u64, k: u64, j: u64) -> u64
    ensures { result ≡ exchange i k j }
{
    if j == i {
        return k;
    }
    if j == k {
        return i;
    }
    j
}

// The entries at the places i and k exchanged, and then those below place k turned round.
fn stepped(p: Permutation, i: u64, k: u64) -> Permutation
    requires { GoodRecord p × (i < k) × (k < p.len) }
    ensures { result ≡ record_of (step i k (arrangement_of p)) }
{
    let n = p.len;
    let mut out = [0u64; CAPACITY];
    for j in 0..n {
        let from = exchanged(i, k, turned(k, j));
        out[j as usize] = p.entries[from as usize];
    }
    Permutation {
        entries: out,
        len: n,
    }
}

// The next permutation in colex order: 1 and 10 of the record, 4 if there is none.
pub fn successor(p: Permutation) -> Result<Permutation, Refusal>
    ensures { answer_says result ≡ recorded (arrangement_successor_says p) }
{
    numbered(p)?;
    let n = p.len;
    let k = first_fall(p);
    if k == n {
        return Err(Refusal::Last);
    }
    let i = first_greater(p, k);
    Ok(stepped(p, i, k))
}
