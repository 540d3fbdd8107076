// Signed operations on terms, for programs in C (docs/RULES.md, section 6). Each call answers and is refused as the call of the crates algebra and deletion that it
// names. A family is whether it is Allowed, an index its family, its alphabet n and its bits, and a sign whether it is minus. "Taken" is how a given index is taken
// first: 1 if its shifted alphabet is above 64; 7 if a symbol of its word is not below n.
ghost use Rattle.std.specs.Prelude.{◌≡◌};
ghost use Rattle.algebra.specs.Rules.{canonical_says, merge_says};
ghost use Rattle.deletion.specs.Rules.{delete_says, complement_says, stabilizer_says};
ghost use Rattle.boundary.specs.Boundary.{family_of, index_at, status, stored, itself, minus_of_term, alphabet_of_term, bits_of_term};
ghost use Rattle.boundary.specs.Boundary.{minus_of_removed, symbol_of_removed, alphabet_of_removed, bits_of_removed};

use boundary::Status;

// The sign of a word given in any order, and the index over n of the sorted word, as its alphabet n and its bits: 1 if the word has more than 64 symbols or the shifted
// alphabet is above 64; 5 if a Forbidden symbol stands twice; 1 if the last shifted symbol of the sorted word is above 63; 7 if a symbol is not below n.
#[unsafe(no_mangle)]
pub extern "C" fn gudrenoss_canonicalise(
    allowed: bool,
    n: u64,
    word: &[u64],
    minus: &mut bool,
    alphabet: &mut u64,
    bits: &mut u64,
) -> Status
    ensures back { result ≡ status (canonical_says (family_of allowed) n word.now) }
    ensures sign { minus.new ≡ stored minus_of_term (canonical_says (family_of allowed) n word.now) minus.old }
    ensures alphabet { alphabet.new ≡ stored alphabet_of_term (canonical_says (family_of allowed) n word.now) alphabet.old }
    ensures bits { bits.new ≡ stored bits_of_term (canonical_says (family_of allowed) n word.now) bits.old }
{
    boundary::signed(
        algebra::canonicalise(boundary::family(allowed), n, word),
        minus,
        alphabet,
        bits,
    )
}

// The sign of two words joined, and the index of the merged word over the larger alphabet, as its alphabet and its bits: both taken, the 1 of either before the 7 of
// either; 6 if the families differ; for Forbidden 5 if the two share a symbol; for Allowed 1 if the shifted alphabet of the result is above 64.
#[unsafe(no_mangle)]
pub extern "C" fn gudrenoss_merge(
    left_allowed: bool,
    left_n: u64,
    left_bits: u64,
    right_allowed: bool,
    right_n: u64,
    right_bits: u64,
    minus: &mut bool,
    alphabet: &mut u64,
    bits: &mut u64,
) -> Status
    ensures back { result ≡ status (merge_says (index_at left_allowed left_n left_bits) (index_at right_allowed right_n right_bits)) }
    ensures sign { minus.new ≡ stored minus_of_term (merge_says (index_at left_allowed left_n left_bits) (index_at right_allowed right_n right_bits)) minus.old }
    ensures alphabet { alphabet.new ≡ stored alphabet_of_term (merge_says (index_at left_allowed left_n left_bits) (index_at right_allowed right_n right_bits)) alphabet.old }
    ensures bits { bits.new ≡ stored bits_of_term (merge_says (index_at left_allowed left_n left_bits) (index_at right_allowed right_n right_bits)) bits.old }
{
    let left = boundary::index(left_allowed, left_n, left_bits);
    let right = boundary::index(right_allowed, right_n, right_bits);
    boundary::signed(algebra::merge(left, right), minus, alphabet, bits)
}

// The sign of a deletion at position p, the symbol there, and the index that is left, as its alphabet, which is n still, and its bits: taken; 7 if the word has no such
// position.
#[unsafe(no_mangle)]
pub extern "C" fn gudrenoss_delete(
    allowed: bool,
    n: u64,
    bits: u64,
    p: u64,
    minus: &mut bool,
    symbol: &mut u64,
    rest_alphabet: &mut u64,
    rest_bits: &mut u64,
) -> Status
    ensures back { result ≡ status (delete_says (index_at allowed n bits) p) }
    ensures sign { minus.new ≡ stored minus_of_removed (delete_says (index_at allowed n bits) p) minus.old }
    ensures symbol { symbol.new ≡ stored symbol_of_removed (delete_says (index_at allowed n bits) p) symbol.old }
    ensures alphabet { rest_alphabet.new ≡ stored alphabet_of_removed (delete_says (index_at allowed n bits) p) rest_alphabet.old }
    ensures bits { rest_bits.new ≡ stored bits_of_removed (delete_says (index_at allowed n bits) p) rest_bits.old }
{
    boundary::deleted(
        deletion::delete(boundary::index(allowed, n, bits), p),
        minus,
        symbol,
        rest_alphabet,
        rest_bits,
    )
}

// The sign of a set followed by its complement below m, and the index of the complement, as its alphabet m and its bits: taken; 6 for Allowed; 1 if m is above 64; 7 if a
// symbol is m or more. The record's own n and m are not compared.
#[unsafe(no_mangle)]
pub extern "C" fn gudrenoss_complement(
    allowed: bool,
    n: u64,
    bits: u64,
    m: u64,
    minus: &mut bool,
    rest_alphabet: &mut u64,
    rest_bits: &mut u64,
) -> Status
    ensures back { result ≡ status (complement_says (index_at allowed n bits) m) }
    ensures sign { minus.new ≡ stored minus_of_term (complement_says (index_at allowed n bits) m) minus.old }
    ensures alphabet { rest_alphabet.new ≡ stored alphabet_of_term (complement_says (index_at allowed n bits) m) rest_alphabet.old }
    ensures bits { rest_bits.new ≡ stored bits_of_term (complement_says (index_at allowed n bits) m) rest_bits.old }
{
    boundary::signed(
        deletion::complement(boundary::index(allowed, n, bits), m),
        minus,
        rest_alphabet,
        rest_bits,
    )
}

// The product of the factorials of the multiplicities of the word of an index: taken; 9 if it is 2^64 or more.
#[unsafe(no_mangle)]
pub extern "C" fn gudrenoss_stabilizer(
    allowed: bool,
    n: u64,
    bits: u64,
    stabilizer: &mut u64,
) -> Status
    ensures back { result ≡ status (stabilizer_says (index_at allowed n bits)) }
    ensures holds { stabilizer.new ≡ stored itself (stabilizer_says (index_at allowed n bits)) stabilizer.old }
{
    boundary::number(
        deletion::stabilizer(boundary::index(allowed, n, bits)),
        stabilizer,
    )
}
