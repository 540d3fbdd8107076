// Wide terms, for programs in C (docs/RULES.md, section 23). Each call answers and is refused as the call of the crates wide_* that it names. A family is whether it is
// Allowed, a wide index its family and its two halves, the low one first, and a sign whether it is minus. Any two halves are an index.
ghost use Rattle.std.specs.Prelude.{◌≡◌, length};
ghost use Rattle.answers.specs.Says.{after, places_of};
ghost use Rattle.wide.specs.Rules.{wide_count_says, wide_rank_says, wide_rank_of_says, wide_unrank_says, wide_unrank_over_says, wide_unrank_any_says};
ghost use Rattle.wide.specs.Rules.{wide_successor_says, wide_merge_says, wide_delete_says};
ghost use Rattle.boundary.specs.Boundary.{family_of, status, stored, itself};
ghost use Rattle.boundary_wide.specs.Halves.{wide_at, low_of, high_of, minus_of_term, low_of_term, high_of_term};
ghost use Rattle.boundary_wide.specs.Halves.{minus_of_gap, symbol_of_gap, low_of_gap, high_of_gap};

use boundary::Status;

// How many words of k symbols below n there are: 1 if k or the shifted alphabet is above 128; 9 if there are 2^64 or more.
#[unsafe(no_mangle)]
pub extern "C" fn gudrenoss_wide_count(allowed: bool, n: u64, k: u64, count: &mut u64) -> Status
    ensures back { result ≡ status (wide_count_says (family_of allowed) n k) }
    ensures holds { count.new ≡ stored itself (wide_count_says (family_of allowed) n k) count.old }
{
    boundary::number(wide_count::count(boundary::family(allowed), n, k), count)
}

// The rank of a word: 1 if it has more than 128 symbols; 2 if it breaks its family's rule; 1 if its last shifted symbol is above 127; 9 if the rank is 2^64 or more.
#[unsafe(no_mangle)]
pub extern "C" fn gudrenoss_wide_rank(allowed: bool, word: &[u64], rank: &mut u64) -> Status
    ensures back { result ≡ status (wide_rank_says (family_of allowed) word.now) }
    ensures holds { rank.new ≡ stored itself (wide_rank_says (family_of allowed) word.now) rank.old }
{
    boundary::number(wide_rank::rank(boundary::family(allowed), word), rank)
}

// The rank of the word of an index: 9 if it is 2^64 or more.
#[unsafe(no_mangle)]
pub extern "C" fn gudrenoss_wide_rank_of(
    allowed: bool,
    low: u64,
    high: u64,
    rank: &mut u64,
) -> Status
    ensures back { result ≡ status (wide_rank_of_says (wide_at allowed low high)) }
    ensures holds { rank.new ≡ stored itself (wide_rank_of_says (wide_at allowed low high)) rank.old }
{
    boundary::number(
        wide_rank::rank_of(boundary_wide::index(allowed, low, high)),
        rank,
    )
}

// The word of k symbols below n that has the rank r, and how many places it takes: 1 and 9 as the count; 3 if r is not below the count; 8 if the lent word is shorter.
#[unsafe(no_mangle)]
pub extern "C" fn gudrenoss_wide_unrank(
    allowed: bool,
    n: u64,
    k: u64,
    r: u64,
    word: &mut [u64],
    written: &mut u64,
) -> Status
    ensures back { result ≡ status (places_of (wide_unrank_says (family_of allowed) n k r (length word.old))) }
    ensures written { written.new ≡ stored itself (places_of (wide_unrank_says (family_of allowed) n k r (length word.old))) written.old }
    ensures holds { word.new ≡ after (wide_unrank_says (family_of allowed) n k r (length word.old)) word.old }
{
    boundary::number(
        wide_unrank::unrank(boundary::family(allowed), n, k, r, word),
        written,
    )
}

// The index of that word, as its halves: 1, 9, 3.
#[unsafe(no_mangle)]
pub extern "C" fn gudrenoss_wide_unrank_over(
    allowed: bool,
    n: u64,
    k: u64,
    r: u64,
    low: &mut u64,
    high: &mut u64,
) -> Status
    ensures back { result ≡ status (wide_unrank_over_says (family_of allowed) n k r) }
    ensures low { low.new ≡ stored low_of (wide_unrank_over_says (family_of allowed) n k r) low.old }
    ensures high { high.new ≡ stored high_of (wide_unrank_over_says (family_of allowed) n k r) high.old }
{
    boundary_wide::indexed(
        wide_unrank::unrank_over(boundary::family(allowed), n, k, r),
        low,
        high,
    )
}

// The index of degree k that has the rank r among those in 128 bits, as its halves: 1 if k is above 128; 9 if there are 2^64 or more; 3.
#[unsafe(no_mangle)]
pub extern "C" fn gudrenoss_wide_unrank_any(
    allowed: bool,
    k: u64,
    r: u64,
    low: &mut u64,
    high: &mut u64,
) -> Status
    ensures back { result ≡ status (wide_unrank_any_says (family_of allowed) k r) }
    ensures low { low.new ≡ stored low_of (wide_unrank_any_says (family_of allowed) k r) low.old }
    ensures high { high.new ≡ stored high_of (wide_unrank_any_says (family_of allowed) k r) high.old }
{
    boundary_wide::indexed(
        wide_unrank::unrank_any(boundary::family(allowed), k, r),
        low,
        high,
    )
}

// The next index of the family and degree, as its halves: 4 if none in 128 bits is later.
#[unsafe(no_mangle)]
pub extern "C" fn gudrenoss_wide_successor(
    allowed: bool,
    low: u64,
    high: u64,
    next_low: &mut u64,
    next_high: &mut u64,
) -> Status
    ensures back { result ≡ status (wide_successor_says (wide_at allowed low high)) }
    ensures low { next_low.new ≡ stored low_of (wide_successor_says (wide_at allowed low high)) next_low.old }
    ensures high { next_high.new ≡ stored high_of (wide_successor_says (wide_at allowed low high)) next_high.old }
{
    boundary_wide::indexed(
        wide_successor::successor(boundary_wide::index(allowed, low, high)),
        next_low,
        next_high,
    )
}

// The sign of two words joined, and the index of the merged word, as its halves: 6 if the families differ; for Forbidden 5 if the two share a symbol; for Allowed 1 if a
// shifted symbol of the merged word is above 127.
#[unsafe(no_mangle)]
pub extern "C" fn gudrenoss_wide_merge(
    left_allowed: bool,
    left_low: u64,
    left_high: u64,
    right_allowed: bool,
    right_low: u64,
    right_high: u64,
    minus: &mut bool,
    low: &mut u64,
    high: &mut u64,
) -> Status
    ensures back { result ≡ status (wide_merge_says (wide_at left_allowed left_low left_high) (wide_at right_allowed right_low right_high)) }
    ensures sign { minus.new ≡ stored minus_of_term (wide_merge_says (wide_at left_allowed left_low left_high) (wide_at right_allowed right_low right_high)) minus.old }
    ensures low { low.new ≡ stored low_of_term (wide_merge_says (wide_at left_allowed left_low left_high) (wide_at right_allowed right_low right_high)) low.old }
    ensures high { high.new ≡ stored high_of_term (wide_merge_says (wide_at left_allowed left_low left_high) (wide_at right_allowed right_low right_high)) high.old }
{
    let left = boundary_wide::index(left_allowed, left_low, left_high);
    let right = boundary_wide::index(right_allowed, right_low, right_high);
    boundary_wide::signed(wide_algebra::merge(left, right), minus, low, high)
}

// The sign of a deletion at position p, the symbol there, and the index that is left, as its halves: 7 if the word has no such position.
#[unsafe(no_mangle)]
pub extern "C" fn gudrenoss_wide_delete(
    allowed: bool,
    low: u64,
    high: u64,
    p: u64,
    minus: &mut bool,
    symbol: &mut u64,
    rest_low: &mut u64,
    rest_high: &mut u64,
) -> Status
    ensures back { result ≡ status (wide_delete_says (wide_at allowed low high) p) }
    ensures sign { minus.new ≡ stored minus_of_gap (wide_delete_says (wide_at allowed low high) p) minus.old }
    ensures symbol { symbol.new ≡ stored symbol_of_gap (wide_delete_says (wide_at allowed low high) p) symbol.old }
    ensures low { rest_low.new ≡ stored low_of_gap (wide_delete_says (wide_at allowed low high) p) rest_low.old }
    ensures high { rest_high.new ≡ stored high_of_gap (wide_delete_says (wide_at allowed low high) p) rest_high.old }
{
    boundary_wide::deleted(
        wide_deletion::delete(boundary_wide::index(allowed, low, high), p),
        minus,
        symbol,
        rest_low,
        rest_high,
    )
}
