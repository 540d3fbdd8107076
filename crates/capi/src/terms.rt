// Terms, for programs in C (docs/RULES.md, section 5). Each call answers and is refused as the call of the crate monotone that it names. A family is whether it
// is Allowed, and an index its family, its alphabet n and its bits. "Taken" is how a given index is taken first: 1 if its shifted alphabet is above 64; 7 if a symbol
// of its word is not below n. A walk is four variables of the caller's: whether it stands at an index, the alphabet and the bits of that index, which are 0 where it
// stands nowhere, and how many indices it has still to give.
ghost use Rattle.std.specs.Prelude.{◌≡◌, length};
ghost use Rattle.answers.specs.Says.{after, places_of};
ghost use Rattle.monotone_count.specs.Rules.{count_says, walk_says};
ghost use Rattle.monotone.specs.Rules.{pack_says, degree_says, unpack_says, symbol_says};
ghost use Rattle.monotone_rank.specs.Rules.{rank_says, rank_of_says};
ghost use Rattle.monotone_unrank.specs.Rules.{unrank_over_says, unrank_says, unrank_any_says};
ghost use Rattle.monotone_walk.specs.Rules.{successor_says};
ghost use Rattle.monotone_walk.specs.Walks.{step_says};
ghost use Rattle.boundary.specs.Boundary.{family_of, index_at, status, stored, itself, alphabet_of_index, bits_of_index};
ghost use Rattle.boundary.specs.Boundary.{walk_at, standing_of, over_of, at_of, remaining_of, alphabet_given, bits_given, standing_after, over_after, at_after, remaining_after};

use boundary::Status;

// How many words of k symbols below n there are: 1 if k or the shifted alphabet is above 64.
#[unsafe(no_mangle)]
pub extern "C" fn gudrenoss_count(allowed: bool, n: u64, k: u64, count: &mut u64) -> Status
    ensures back { result ≡ status (count_says (family_of allowed) n k) }
    ensures holds { count.new ≡ stored itself (count_says (family_of allowed) n k) count.old }
{
    boundary::number(
        monotone_count::count(boundary::family(allowed), n, k),
        count,
    )
}

// The index of a word over n, as its alphabet n and its bits: 1 if the word has more than 64 symbols or the shifted alphabet is above 64; 2 if it breaks its family's
// rule; 1 if its last shifted symbol is above 63; 7 if a symbol is not below n.
#[unsafe(no_mangle)]
pub extern "C" fn gudrenoss_pack(
    allowed: bool,
    n: u64,
    word: &[u64],
    alphabet: &mut u64,
    bits: &mut u64,
) -> Status
    ensures back { result ≡ status (pack_says (family_of allowed) n word.now) }
    ensures alphabet { alphabet.new ≡ stored alphabet_of_index (pack_says (family_of allowed) n word.now) alphabet.old }
    ensures bits { bits.new ≡ stored bits_of_index (pack_says (family_of allowed) n word.now) bits.old }
{
    boundary::indexed(
        monotone::pack(boundary::family(allowed), n, word),
        alphabet,
        bits,
    )
}

// The word of an index, and how many places it takes: taken; 8 if the lent word is shorter.
#[unsafe(no_mangle)]
pub extern "C" fn gudrenoss_unpack(
    allowed: bool,
    n: u64,
    bits: u64,
    word: &mut [u64],
    written: &mut u64,
) -> Status
    ensures back { result ≡ status (places_of (unpack_says (index_at allowed n bits) (length word.old))) }
    ensures written { written.new ≡ stored itself (places_of (unpack_says (index_at allowed n bits) (length word.old))) written.old }
    ensures holds { word.new ≡ after (unpack_says (index_at allowed n bits) (length word.old)) word.old }
{
    boundary::number(
        monotone::unpack(boundary::index(allowed, n, bits), word),
        written,
    )
}

// How many symbols the word of an index has: taken.
#[unsafe(no_mangle)]
pub extern "C" fn gudrenoss_degree(allowed: bool, n: u64, bits: u64, degree: &mut u64) -> Status
    ensures back { result ≡ status (degree_says (index_at allowed n bits)) }
    ensures holds { degree.new ≡ stored itself (degree_says (index_at allowed n bits)) degree.old }
{
    boundary::number(monotone::degree(boundary::index(allowed, n, bits)), degree)
}

// The symbol at position p of the word of an index: taken; 7 if it has no such position.
#[unsafe(no_mangle)]
pub extern "C" fn gudrenoss_symbol(
    allowed: bool,
    n: u64,
    bits: u64,
    p: u64,
    symbol: &mut u64,
) -> Status
    ensures back { result ≡ status (symbol_says (index_at allowed n bits) p) }
    ensures holds { symbol.new ≡ stored itself (symbol_says (index_at allowed n bits) p) symbol.old }
{
    boundary::number(
        monotone::symbol(boundary::index(allowed, n, bits), p),
        symbol,
    )
}

// The rank of a word, which is given no n: 1 if it has more than 64 symbols; 2 if it breaks its family's rule; 1 if its last shifted symbol is above 63.
#[unsafe(no_mangle)]
pub extern "C" fn gudrenoss_rank(allowed: bool, word: &[u64], rank: &mut u64) -> Status
    ensures back { result ≡ status (rank_says (family_of allowed) word.now) }
    ensures holds { rank.new ≡ stored itself (rank_says (family_of allowed) word.now) rank.old }
{
    boundary::number(monotone_rank::rank(boundary::family(allowed), word), rank)
}

// The rank of the word of an index, which does not depend on its n: taken.
#[unsafe(no_mangle)]
pub extern "C" fn gudrenoss_rank_of(allowed: bool, n: u64, bits: u64, rank: &mut u64) -> Status
    ensures back { result ≡ status (rank_of_says (index_at allowed n bits)) }
    ensures holds { rank.new ≡ stored itself (rank_of_says (index_at allowed n bits)) rank.old }
{
    boundary::number(
        monotone_rank::rank_of(boundary::index(allowed, n, bits)),
        rank,
    )
}

// The word of k symbols below n that has the rank r, and how many places it takes: 1 as in the count; 3 if r is not below that; 8 if the lent word is shorter.
#[unsafe(no_mangle)]
pub extern "C" fn gudrenoss_unrank(
    allowed: bool,
    n: u64,
    k: u64,
    r: u64,
    word: &mut [u64],
    written: &mut u64,
) -> Status
    ensures back { result ≡ status (places_of (unrank_says (family_of allowed) n k r (length word.old))) }
    ensures written { written.new ≡ stored itself (places_of (unrank_says (family_of allowed) n k r (length word.old))) written.old }
    ensures holds { word.new ≡ after (unrank_says (family_of allowed) n k r (length word.old)) word.old }
{
    boundary::number(
        monotone_unrank::unrank(boundary::family(allowed), n, k, r, word),
        written,
    )
}

// The index of that word, as its alphabet n and its bits: 1, 3.
#[unsafe(no_mangle)]
pub extern "C" fn gudrenoss_unrank_over(
    allowed: bool,
    n: u64,
    k: u64,
    r: u64,
    alphabet: &mut u64,
    bits: &mut u64,
) -> Status
    ensures back { result ≡ status (unrank_over_says (family_of allowed) n k r) }
    ensures alphabet { alphabet.new ≡ stored alphabet_of_index (unrank_over_says (family_of allowed) n k r) alphabet.old }
    ensures bits { bits.new ≡ stored bits_of_index (unrank_over_says (family_of allowed) n k r) bits.old }
{
    boundary::indexed(
        monotone_unrank::unrank_over(boundary::family(allowed), n, k, r),
        alphabet,
        bits,
    )
}

// The index of the word of k symbols that has the rank r, over the shifted alphabet 64, as its alphabet (64, or 65 - k for Allowed from degree 1) and its bits: 1 if k
// is above 64; 3 if r is not below the count.
#[unsafe(no_mangle)]
pub extern "C" fn gudrenoss_unrank_any(
    allowed: bool,
    k: u64,
    r: u64,
    alphabet: &mut u64,
    bits: &mut u64,
) -> Status
    ensures back { result ≡ status (unrank_any_says (family_of allowed) k r) }
    ensures alphabet { alphabet.new ≡ stored alphabet_of_index (unrank_any_says (family_of allowed) k r) alphabet.old }
    ensures bits { bits.new ≡ stored bits_of_index (unrank_any_says (family_of allowed) k r) bits.old }
{
    boundary::indexed(
        monotone_unrank::unrank_any(boundary::family(allowed), k, r),
        alphabet,
        bits,
    )
}

// The next index of that family, alphabet and degree, as its alphabet and its bits: taken; 4 if none is later.
#[unsafe(no_mangle)]
pub extern "C" fn gudrenoss_successor(
    allowed: bool,
    n: u64,
    bits: u64,
    next_alphabet: &mut u64,
    next_bits: &mut u64,
) -> Status
    ensures back { result ≡ status (successor_says (index_at allowed n bits)) }
    ensures alphabet { next_alphabet.new ≡ stored alphabet_of_index (successor_says (index_at allowed n bits)) next_alphabet.old }
    ensures bits { next_bits.new ≡ stored bits_of_index (successor_says (index_at allowed n bits)) next_bits.old }
{
    boundary::indexed(
        monotone_walk::successor(boundary::index(allowed, n, bits)),
        next_alphabet,
        next_bits,
    )
}

// The start of a walk over the words of k symbols below n: 1 as in the count.
#[unsafe(no_mangle)]
pub extern "C" fn gudrenoss_walk_start(
    allowed: bool,
    n: u64,
    k: u64,
    standing: &mut bool,
    over: &mut u64,
    at: &mut u64,
    remaining: &mut u64,
) -> Status
    ensures back { result ≡ status (walk_says (family_of allowed) n k) }
    ensures standing { standing.new ≡ stored standing_of (walk_says (family_of allowed) n k) standing.old }
    ensures over { over.new ≡ stored over_of (walk_says (family_of allowed) n k) over.old }
    ensures at { at.new ≡ stored at_of (walk_says (family_of allowed) n k) at.old }
    ensures remaining { remaining.new ≡ stored remaining_of (walk_says (family_of allowed) n k) remaining.old }
{
    boundary::started(
        monotone_count::start(boundary::family(allowed), n, k),
        standing,
        over,
        at,
        remaining,
    )
}

// One step of a walk: the index that it stood at, as its alphabet and its bits, and the walk moved on: 4 if it stands nowhere; the index where it stands taken; 4 if
// nothing remains. The family is that of the start. A walk that somebody made up is stepped by the same rule.
#[unsafe(no_mangle)]
pub extern "C" fn gudrenoss_walk_step(
    allowed: bool,
    standing: &mut bool,
    over: &mut u64,
    at: &mut u64,
    remaining: &mut u64,
    alphabet: &mut u64,
    bits: &mut u64,
) -> Status
    ensures back { result ≡ status (step_says (walk_at allowed standing.old over.old at.old remaining.old)) }
    ensures standing { standing.new ≡ stored standing_after (step_says (walk_at allowed standing.old over.old at.old remaining.old)) standing.old }
    ensures over { over.new ≡ stored over_after (step_says (walk_at allowed standing.old over.old at.old remaining.old)) over.old }
    ensures at { at.new ≡ stored at_after (step_says (walk_at allowed standing.old over.old at.old remaining.old)) at.old }
    ensures remaining { remaining.new ≡ stored remaining_after (step_says (walk_at allowed standing.old over.old at.old remaining.old)) remaining.old }
    ensures alphabet { alphabet.new ≡ stored alphabet_given (step_says (walk_at allowed standing.old over.old at.old remaining.old)) alphabet.old }
    ensures bits { bits.new ≡ stored bits_given (step_says (walk_at allowed standing.old over.old at.old remaining.old)) bits.old }
{
    let state = boundary::walk(allowed, *standing, *over, *at, *remaining);
    boundary::stepped(
        monotone_walk::step(state),
        standing,
        over,
        at,
        remaining,
        alphabet,
        bits,
    )
}
