// Permutations, for programs in C (docs/RULES.md, section 8). A permutation is lent as its 64 entries, in an array of 64 places, and its length; it is good if its
// entries up to the length are a bijection of 0 .. length - 1. A result is written to such places, all 64 of them, and its length beside them; the places past it are 0.
ghost use Rattle.std.specs.Prelude.{◌≡◌};
ghost use Rattle.answers.specs.Says.{answer_says};
ghost use Rattle.permutation.specs.Rules.{image_says};
ghost use Rattle.permutation_group.specs.Rules.{inverse_says, compose_says, sign_says};
ghost use Rattle.permutation_order.specs.Rules.{arrangement_rank_says, arrangement_unrank_says, arrangement_successor_says};
ghost use Rattle.boundary.specs.Boundary.{answered, status, stored, itself, minus as is_minus};
ghost use Rattle.capi.specs.Permutations.{lent_as, entries_of, length_of};

use answers::{Refusal, Sign};
use boundary::Status;
use permutation::{CAPACITY, Permutation};

// The record of a permutation that is lent.
fn lent(entries: &[u64; CAPACITY], len: u64) -> Permutation
    ensures { result ≡ lent_as entries.now len }
{
    Permutation {
        entries: *entries,
        len,
    }
}

// The entries and the length of a record that is given.
fn handed(p: &Permutation, entries: &mut [u64; CAPACITY], len: &mut u64) -> Status
    ensures back { result ≡ answered }
    ensures holds { entries.new ≡ p.now.entries }
    ensures long { len.new ≡ p.now.len }
{
    let given = p.entries;
    *entries = given;
    *len = p.len;
    boundary::answer()
}

// The entries and the length of a permutation that is an answer.
fn arranged(a: Result<Permutation, Refusal>, entries: &mut [u64; CAPACITY], len: &mut u64) -> Status
    ensures back { result ≡ status (answer_says a) }
    ensures holds { entries.new ≡ stored (λ p. p.entries) (answer_says a) entries.old }
    ensures long { len.new ≡ stored (λ p. p.len) (answer_says a) len.old }
{
    match a {
        Ok(p) => handed(&p, entries, len),
        Err(e) => boundary::refused(e),
    }
}

// A sign that is an answer, as whether it is minus.
fn signed(a: Result<Sign, Refusal>, out: &mut bool) -> Status
    ensures back { result ≡ status (answer_says a) }
    ensures holds { out.new ≡ stored is_minus (answer_says a) out.old }
{
    match a {
        Ok(s) => {
            *out = boundary::is_minus(s);
            boundary::answer()
        }
        Err(e) => boundary::refused(e),
    }
}

// The image of place i: 1 if the length is above 64; 10 if p is not good; 7 if i is not below the length.
#[unsafe(no_mangle)]
pub extern "C" fn gudrenoss_permutation_image(
    p: &[u64; CAPACITY],
    n: u64,
    i: u64,
    entry: &mut u64,
) -> Status
    ensures back { result ≡ status (image_says (lent_as p.now n) i) }
    ensures holds { entry.new ≡ stored itself (image_says (lent_as p.now n) i) entry.old }
{
    boundary::number(permutation::image(lent(p, n), i), entry)
}

// The inverse, which sends entry i to i: 1 if the length is above 64; 10 if p is not good. It is `permutation_group::inverse`, step by step: a result with a
// record in it is copied once more, which at 64 entries is a quarter of the time.
#[unsafe(no_mangle)]
pub extern "C" fn gudrenoss_permutation_inverse(
    p: &[u64; CAPACITY],
    n: u64,
    entries: &mut [u64; CAPACITY],
    len: &mut u64,
) -> Status
    ensures back { result ≡ status (inverse_says (lent_as p.now n)) }
    ensures holds { entries.new ≡ stored entries_of (inverse_says (lent_as p.now n)) entries.old }
    ensures long { len.new ≡ stored length_of (inverse_says (lent_as p.now n)) len.old }
{
    let q = lent(p, n);
    match permutation::checked(q) {
        Ok(()) => handed(&permutation_group::inverted(&q), entries, len),
        Err(e) => boundary::refused(e),
    }
}

// p after q, which sends i to p(q(i)): 1 if either length is above 64; 8 if the lengths differ; 10 if either is not good.
#[unsafe(no_mangle)]
pub extern "C" fn gudrenoss_permutation_compose(
    p: &[u64; CAPACITY],
    n: u64,
    q: &[u64; CAPACITY],
    m: u64,
    entries: &mut [u64; CAPACITY],
    len: &mut u64,
) -> Status
    ensures back { result ≡ status (compose_says (lent_as p.now n) (lent_as q.now m)) }
    ensures holds { entries.new ≡ stored entries_of (compose_says (lent_as p.now n) (lent_as q.now m)) entries.old }
    ensures long { len.new ≡ stored length_of (compose_says (lent_as p.now n) (lent_as q.now m)) len.old }
{
    arranged(
        permutation_group::compose(lent(p, n), lent(q, m)),
        entries,
        len,
    )
}

// The sign of the number of inversions, as whether it is minus: 1 if the length is above 64; 10 if p is not good.
#[unsafe(no_mangle)]
pub extern "C" fn gudrenoss_permutation_sign(
    p: &[u64; CAPACITY],
    n: u64,
    minus: &mut bool,
) -> Status
    ensures back { result ≡ status (sign_says (lent_as p.now n)) }
    ensures holds { minus.new ≡ stored is_minus (sign_says (lent_as p.now n)) minus.old }
{
    signed(permutation_group::sign(lent(p, n)), minus)
}

// The rank in colex order: 1 if the length is above 20; 10 if p is not good.
#[unsafe(no_mangle)]
pub extern "C" fn gudrenoss_permutation_rank(p: &[u64; CAPACITY], n: u64, rank: &mut u64) -> Status
    ensures back { result ≡ status (arrangement_rank_says (lent_as p.now n)) }
    ensures holds { rank.new ≡ stored itself (arrangement_rank_says (lent_as p.now n)) rank.old }
{
    boundary::number(permutation_order::rank(lent(p, n)), rank)
}

// The permutation of length n with rank r: 1 if n is above 20; 3 if r is not below n!.
#[unsafe(no_mangle)]
pub extern "C" fn gudrenoss_permutation_unrank(
    n: u64,
    r: u64,
    entries: &mut [u64; CAPACITY],
    len: &mut u64,
) -> Status
    ensures back { result ≡ status (arrangement_unrank_says n r) }
    ensures holds { entries.new ≡ stored entries_of (arrangement_unrank_says n r) entries.old }
    ensures long { len.new ≡ stored length_of (arrangement_unrank_says n r) len.old }
{
    arranged(permutation_order::unrank(n, r), entries, len)
}

// The permutation with the next rank: 1 if the length is above 20; 10 if p is not good; 4 if p is the last of its length, the identity.
#[unsafe(no_mangle)]
pub extern "C" fn gudrenoss_permutation_successor(
    p: &[u64; CAPACITY],
    n: u64,
    entries: &mut [u64; CAPACITY],
    len: &mut u64,
) -> Status
    ensures back { result ≡ status (arrangement_successor_says (lent_as p.now n)) }
    ensures holds { entries.new ≡ stored entries_of (arrangement_successor_says (lent_as p.now n)) entries.old }
    ensures long { len.new ≡ stored length_of (arrangement_successor_says (lent_as p.now n)) len.old }
{
    arranged(permutation_order::successor(lent(p, n)), entries, len)
}
