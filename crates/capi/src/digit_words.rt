// Digit words, for programs in C (docs/RULES.md, section 10). A digit word crosses as three numbers: its radix, its degree and its rank. "The word's checks" are 1 if the
// degree is above 64; 9 if radix^degree is 2^64 or more; 3 if the rank is not below it.
ghost use Rattle.std.specs.Prelude.{◌≡◌, length};
ghost use Rattle.answers.specs.Says.{after, places_of, answer_says};
ghost use Rattle.digits.specs.Rules.{digit_count_says, symbols_says, digit_symbol_says, from_symbols_says};
ghost use Rattle.digits_algebra.specs.Rules.{multiplicity_says, digit_stabilizer_says, concat_says, digit_delete_says};
ghost use Rattle.boundary.specs.Boundary.{status, stored, itself};
ghost use Rattle.capi.specs.DigitWords.{word_at, degree_of_word, rank_of_word, symbol_of_taken, rank_of_taken};

use answers::Refusal;
use boundary::Status;
use digits::{DigitWord, TakenOut};

// A digit word that is an answer, as its degree and its rank.
fn worded(a: Result<DigitWord, Refusal>, degree: &mut u64, rank: &mut u64) -> Status
    ensures back { result ≡ status (answer_says a) }
    ensures degree { degree.new ≡ stored degree_of_word (answer_says a) degree.old }
    ensures rank { rank.new ≡ stored rank_of_word (answer_says a) rank.old }
{
    match a {
        Ok(x) => {
            *degree = x.degree;
            *rank = x.rank;
            boundary::answer()
        }
        Err(e) => boundary::refused(e),
    }
}

// A symbol and a digit word that are an answer, as the symbol and the word's rank.
fn deleted(a: Result<TakenOut, Refusal>, symbol: &mut u64, rest: &mut u64) -> Status
    ensures back { result ≡ status (answer_says a) }
    ensures symbol { symbol.new ≡ stored symbol_of_taken (answer_says a) symbol.old }
    ensures rest { rest.new ≡ stored rank_of_taken (answer_says a) rest.old }
{
    match a {
        Ok(out) => {
            *symbol = out.symbol;
            *rest = out.left.rank;
            boundary::answer()
        }
        Err(e) => boundary::refused(e),
    }
}

// How many digit words of a degree there are over a radix: 1 if the degree is above 64; 9 if radix^degree is 2^64 or more.
#[unsafe(no_mangle)]
pub extern "C" fn gudrenoss_digits_count(radix: u64, degree: u64, count: &mut u64) -> Status
    ensures back { result ≡ status (digit_count_says radix degree) }
    ensures holds { count.new ≡ stored itself (digit_count_says radix degree) count.old }
{
    boundary::number(digits::count(radix, degree), count)
}

// The digit word of the given symbols, as its degree and its rank: 1 if there are more than 64 symbols; 7 if one is not below the radix; 9 if the radix to their number
// is 2^64 or more.
#[unsafe(no_mangle)]
pub extern "C" fn gudrenoss_digits_from_symbols(
    radix: u64,
    symbols: &[u64],
    degree: &mut u64,
    rank: &mut u64,
) -> Status
    ensures back { result ≡ status (from_symbols_says radix symbols.now) }
    ensures degree { degree.new ≡ stored degree_of_word (from_symbols_says radix symbols.now) degree.old }
    ensures rank { rank.new ≡ stored rank_of_word (from_symbols_says radix symbols.now) rank.old }
{
    worded(digits::from_symbols(radix, symbols), degree, rank)
}

// The symbols of a digit word, that of position 0 first: the word's checks; 8 if the output has fewer places than the degree.
#[unsafe(no_mangle)]
pub extern "C" fn gudrenoss_digits_symbols(
    radix: u64,
    degree: u64,
    rank: u64,
    symbols: &mut [u64],
    written: &mut u64,
) -> Status
    ensures back { result ≡ status (places_of (symbols_says (word_at radix degree rank) (length symbols.old))) }
    ensures written { written.new ≡ stored itself (places_of (symbols_says (word_at radix degree rank) (length symbols.old))) written.old }
    ensures holds { symbols.new ≡ after (symbols_says (word_at radix degree rank) (length symbols.old)) symbols.old }
{
    let word = DigitWord {
        radix,
        degree,
        rank,
    };
    boundary::number(digits::symbols(word, symbols), written)
}

// The symbol at position p: the word's checks; 7 if p is not below the degree.
#[unsafe(no_mangle)]
pub extern "C" fn gudrenoss_digits_symbol(
    radix: u64,
    degree: u64,
    rank: u64,
    p: u64,
    symbol: &mut u64,
) -> Status
    ensures back { result ≡ status (digit_symbol_says (word_at radix degree rank) p) }
    ensures holds { symbol.new ≡ stored itself (digit_symbol_says (word_at radix degree rank) p) symbol.old }
{
    let word = DigitWord {
        radix,
        degree,
        rank,
    };
    boundary::number(digits::symbol(word, p), symbol)
}

// How many positions carry the symbol s, 0 if s is not below the radix: the word's checks.
#[unsafe(no_mangle)]
pub extern "C" fn gudrenoss_digits_multiplicity(
    radix: u64,
    degree: u64,
    rank: u64,
    s: u64,
    multiplicity: &mut u64,
) -> Status
    ensures back { result ≡ status (multiplicity_says (word_at radix degree rank) s) }
    ensures holds { multiplicity.new ≡ stored itself (multiplicity_says (word_at radix degree rank) s) multiplicity.old }
{
    let word = DigitWord {
        radix,
        degree,
        rank,
    };
    boundary::number(digits_algebra::multiplicity(word, s), multiplicity)
}

// The product of the factorials of the multiplicities: the word's checks; 9 if the product is 2^64 or more.
#[unsafe(no_mangle)]
pub extern "C" fn gudrenoss_digits_stabilizer(
    radix: u64,
    degree: u64,
    rank: u64,
    stabilizer: &mut u64,
) -> Status
    ensures back { result ≡ status (digit_stabilizer_says (word_at radix degree rank)) }
    ensures holds { stabilizer.new ≡ stored itself (digit_stabilizer_says (word_at radix degree rank)) stabilizer.old }
{
    let word = DigitWord {
        radix,
        degree,
        rank,
    };
    boundary::number(digits_algebra::stabilizer(word), stabilizer)
}

// The digit word with the digits of the left one lowest, as its degree and its rank: the checks of the left word; those of the right one; 8 if the radices differ; 1 if
// the degrees sum to more than 64; 9 if the radix to that sum is 2^64 or more.
#[unsafe(no_mangle)]
pub extern "C" fn gudrenoss_digits_concat(
    left_radix: u64,
    left_degree: u64,
    left_rank: u64,
    right_radix: u64,
    right_degree: u64,
    right_rank: u64,
    degree: &mut u64,
    rank: &mut u64,
) -> Status
    ensures back { result ≡ status (concat_says (word_at left_radix left_degree left_rank) (word_at right_radix right_degree right_rank)) }
    ensures degree { degree.new ≡ stored degree_of_word (concat_says (word_at left_radix left_degree left_rank) (word_at right_radix right_degree right_rank)) degree.old }
    ensures rank { rank.new ≡ stored rank_of_word (concat_says (word_at left_radix left_degree left_rank) (word_at right_radix right_degree right_rank)) rank.old }
{
    let left = DigitWord {
        radix: left_radix,
        degree: left_degree,
        rank: left_rank,
    };
    let right = DigitWord {
        radix: right_radix,
        degree: right_degree,
        rank: right_rank,
    };
    worded(digits_algebra::concat(left, right), degree, rank)
}

// The symbol at position p, and the rank of the word of one degree fewer without it, the gap closed: the word's checks; 7 if p is not below the degree.
#[unsafe(no_mangle)]
pub extern "C" fn gudrenoss_digits_delete(
    radix: u64,
    degree: u64,
    rank: u64,
    p: u64,
    symbol: &mut u64,
    rest: &mut u64,
) -> Status
    ensures back { result ≡ status (digit_delete_says (word_at radix degree rank) p) }
    ensures symbol { symbol.new ≡ stored symbol_of_taken (digit_delete_says (word_at radix degree rank) p) symbol.old }
    ensures rest { rest.new ≡ stored rank_of_taken (digit_delete_says (word_at radix degree rank) p) rest.old }
{
    let word = DigitWord {
        radix,
        degree,
        rank,
    };
    deleted(digits_algebra::delete(word, p), symbol, rest)
}
