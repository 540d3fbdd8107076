// Old tables, for programs in C (docs/RULES.md, section 14): terms in lexicographic order over a fixed alphabet n, and the converter between a body in that order
// and one in the order of all other calls. Each call answers and is refused as the call of the crates lexical and conversion that it names. A family is whether it is
// Allowed. An entry of a body is eight bytes, whatever they hold. Widening the alphabet renumbers terms in lexicographic order.
ghost use Rattle.std.specs.Prelude.{◌≡◌, true, false, length};
ghost use Rattle.answers.specs.Says.{after, places_of};
ghost use Rattle.lexical.specs.Rules.{lex_rank_says, lex_unrank_says, lex_successor_says};
ghost use Rattle.conversion.specs.Rules.{convert_says};
ghost use Rattle.boundary.specs.Boundary.{family_of, status, stored, itself};

use boundary::Status;

// The lexicographic rank of a word over n: 1 if the word has more than 64 symbols or the shifted alphabet is above 64; 2 if it breaks its family's rule; 1 if its last
// shifted symbol is above 63; 7 if a symbol is not below n.
#[unsafe(no_mangle)]
pub extern "C" fn gudrenoss_lex_rank(allowed: bool, n: u64, word: &[u64], rank: &mut u64) -> Status
    ensures back { result ≡ status (lex_rank_says (family_of allowed) n word.now) }
    ensures holds { rank.new ≡ stored itself (lex_rank_says (family_of allowed) n word.now) rank.old }
{
    boundary::number(lexical::rank(boundary::family(allowed), n, word), rank)
}

// The word of k symbols below n that has the lexicographic rank r, and how many places it takes: 1 if k or the shifted alphabet is above 64; 3 if r is not below the
// count; 8 if the lent word is shorter.
#[unsafe(no_mangle)]
pub extern "C" fn gudrenoss_lex_unrank(
    allowed: bool,
    n: u64,
    k: u64,
    r: u64,
    word: &mut [u64],
    written: &mut u64,
) -> Status
    ensures back { result ≡ status (places_of (lex_unrank_says (family_of allowed) n k r (length word.old))) }
    ensures written { written.new ≡ stored itself (places_of (lex_unrank_says (family_of allowed) n k r (length word.old))) written.old }
    ensures holds { word.new ≡ after (lex_unrank_says (family_of allowed) n k r (length word.old)) word.old }
{
    boundary::number(
        lexical::unrank(boundary::family(allowed), n, k, r, word),
        written,
    )
}

// The next word over n in lexicographic order, and how many places it takes: refused as the rank is; 4 if no word of as many symbols below n is later; 8 if the lent
// place is shorter.
#[unsafe(no_mangle)]
pub extern "C" fn gudrenoss_lex_successor(
    allowed: bool,
    n: u64,
    word: &[u64],
    next: &mut [u64],
    written: &mut u64,
) -> Status
    ensures back { result ≡ status (places_of (lex_successor_says (family_of allowed) n word.now (length next.old))) }
    ensures written { written.new ≡ stored itself (places_of (lex_successor_says (family_of allowed) n word.now (length next.old))) written.old }
    ensures holds { next.new ≡ after (lex_successor_says (family_of allowed) n word.now (length next.old)) next.old }
{
    boundary::number(
        lexical::successor(boundary::family(allowed), n, word, next),
        written,
    )
}

// An old body, in lexicographic order, as a new one, in colex order, and how many bytes it has: 1 if k or the shifted alphabet is above 64; 8 unless both buffers have
// exactly the count of 8-byte entries.
#[unsafe(no_mangle)]
pub extern "C" fn gudrenoss_lex_to_colex(
    allowed: bool,
    n: u64,
    k: u64,
    from: &[u8],
    to: &mut [u8],
    written: &mut u64,
) -> Status
    ensures back { result ≡ status (places_of (convert_says false (family_of allowed) n k from.now (length to.old))) }
    ensures written { written.new ≡ stored itself (places_of (convert_says false (family_of allowed) n k from.now (length to.old))) written.old }
    ensures holds { to.new ≡ after (convert_says false (family_of allowed) n k from.now (length to.old)) to.old }
{
    boundary::number(
        conversion::convert(false, boundary::family(allowed), n, k, from, to),
        written,
    )
}

// A new body, in colex order, as an old one, in lexicographic order, and how many bytes it has: 1, 8 likewise.
#[unsafe(no_mangle)]
pub extern "C" fn gudrenoss_lex_from_colex(
    allowed: bool,
    n: u64,
    k: u64,
    from: &[u8],
    to: &mut [u8],
    written: &mut u64,
) -> Status
    ensures back { result ≡ status (places_of (convert_says true (family_of allowed) n k from.now (length to.old))) }
    ensures written { written.new ≡ stored itself (places_of (convert_says true (family_of allowed) n k from.now (length to.old))) written.old }
    ensures holds { to.new ≡ after (convert_says true (family_of allowed) n k from.now (length to.old)) to.old }
{
    boundary::number(
        conversion::convert(true, boundary::family(allowed), n, k, from, to),
        written,
    )
}
