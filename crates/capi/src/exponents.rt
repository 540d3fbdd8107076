// Exponents, for programs in C (docs/RULES.md, section 11). A list of exponents crosses as the slice of its entries; its n is their number and its degree k their exact
// sum. "Too wide" is more than 64 entries, or k above 64, or the shifted alphabet of Allowed n and k above 64.
ghost use Rattle.std.specs.Prelude.{◌≡◌, length};
ghost use Rattle.answers.specs.Says.{after, places_of};
ghost use Rattle.composition.specs.Rules.{word_says, from_word_says, add_says};
ghost use Rattle.composition_rank.specs.Rules.{exponent_rank_says, from_rank_says};
ghost use Rattle.boundary.specs.Boundary.{status, stored, itself};

use boundary::Status;

// The word of a list of exponents: 1 if it is too wide; 8 if the output has fewer than k places.
#[unsafe(no_mangle)]
pub extern "C" fn gudrenoss_exponents_word(
    entries: &[u64],
    word: &mut [u64],
    written: &mut u64,
) -> Status
    ensures back { result ≡ status (places_of (word_says entries.now (length word.old))) }
    ensures written { written.new ≡ stored itself (places_of (word_says entries.now (length word.old))) written.old }
    ensures holds { word.new ≡ after (word_says entries.now (length word.old)) word.old }
{
    boundary::number(composition::word(entries, word), written)
}

// The n exponents of a word in any order: 1 if n entries with k the length of the word are too wide; 7 if a symbol is not below n; 8 if the output has fewer than n
// places.
#[unsafe(no_mangle)]
pub extern "C" fn gudrenoss_exponents_from_word(
    n: u64,
    word: &[u64],
    entries: &mut [u64],
    written: &mut u64,
) -> Status
    ensures back { result ≡ status (places_of (from_word_says n word.now (length entries.old))) }
    ensures written { written.new ≡ stored itself (places_of (from_word_says n word.now (length entries.old))) written.old }
    ensures holds { entries.new ≡ after (from_word_says n word.now (length entries.old)) entries.old }
{
    boundary::number(composition::from_word(n, word, entries), written)
}

// The rank of the word of a list of exponents: 1 if it is too wide.
#[unsafe(no_mangle)]
pub extern "C" fn gudrenoss_exponents_rank(entries: &[u64], rank: &mut u64) -> Status
    ensures back { result ≡ status (exponent_rank_says entries.now) }
    ensures holds { rank.new ≡ stored itself (exponent_rank_says entries.now) rank.old }
{
    boundary::number(composition_rank::rank(entries), rank)
}

// The n exponents of the Allowed word of k symbols that has rank r: 1 if n and k are too wide; 3 if r is not below the count; 8 if the output has fewer than n places.
#[unsafe(no_mangle)]
pub extern "C" fn gudrenoss_exponents_from_rank(
    n: u64,
    k: u64,
    r: u64,
    entries: &mut [u64],
    written: &mut u64,
) -> Status
    ensures back { result ≡ status (places_of (from_rank_says n k r (length entries.old))) }
    ensures written { written.new ≡ stored itself (places_of (from_rank_says n k r (length entries.old))) written.old }
    ensures holds { entries.new ≡ after (from_rank_says n k r (length entries.old)) entries.old }
{
    boundary::number(composition_rank::from_rank(n, k, r, entries), written)
}

// The sum of two lists of exponents: 1 if the first is too wide; 1 if the second is; 8 if they have not equally many entries; 1 if the sum is too wide; 8 if the output
// has fewer places than there are entries.
#[unsafe(no_mangle)]
pub extern "C" fn gudrenoss_exponents_add(
    left: &[u64],
    right: &[u64],
    entries: &mut [u64],
    written: &mut u64,
) -> Status
    ensures back { result ≡ status (places_of (add_says left.now right.now (length entries.old))) }
    ensures written { written.new ≡ stored itself (places_of (add_says left.now right.now (length entries.old))) written.old }
    ensures holds { entries.new ≡ after (add_says left.now right.now (length entries.old)) entries.old }
{
    boundary::number(composition::add(left, right, entries), written)
}
