// Digit words (document 01, "Shapes, digit words, exponents"): a radix, a degree of at most 64 and a rank, which is the word as a positional number, position 0
// least significant. Their count, and their symbols. Multiplicities, concatenation and deletion are `digits_algebra`'s.
#![tactic(auto)]

ghost use Rattle.std.specs.Prelude.{◌≡◌, ◌%◌, ◌^◌, ◌<◌, ◌≤◌, length, replicate};
ghost use Rattle.words.specs.Word.{Below};
ghost use Rattle.answers.specs.Says.{answer_says, places_of, after, gives};
ghost use Rattle.positional.specs.Positional.{positional_value, digits_of};
ghost use Rattle.cartesian.specs.Checks.{number_says};
ghost use Rattle.digits.specs.Rules.{digit_count_says, check_says, symbols_says, digit_symbol_says, from_symbols_says};

use answers::Refusal;

// A digit word. Anyone may make one up; each call checks it.
#[derive(Clone, Copy)]
pub struct DigitWord {
    pub radix: u64,
    pub degree: u64,
    pub rank: u64,
}

// A symbol, and the digit word without it.
#[derive(Clone, Copy)]
pub struct TakenOut {
    pub symbol: u64,
    pub left: DigitWord,
}

// The base if so many factors are left that one stands alone beside their pairs; otherwise 1.
fn odd_factor(base: u64, left: u64) -> u64
    ensures { result ≡ base ^ (left % 2) }
{
    if left % 2 == 0 {
        return 1;
    }
    base
}

// The radix to a power, by squares: 9 if that is 2^64 or more. 0^0 is 1.
pub fn power(radix: u64, degree: u64) -> Result<u64, Refusal>
    ensures { answer_says result ≡ number_says (radix ^ degree) }
{
    let mut product: u64 = 1;
    let mut base = radix;
    let mut left = degree;
    // The exponent is halved and no index is counted: a `for` over its digits would say less.
    while 1 < left {
        let odd = odd_factor(base, left);
        if cartesian::exceeds(product, odd) {
            return Err(Refusal::TooBig);
        }
        if cartesian::exceeds(base, base) {
            return Err(Refusal::TooBig);
        }
        product *= odd;
        base *= base;
        left /= 2;
    }
    let odd = odd_factor(base, left);
    if cartesian::exceeds(product, odd) {
        return Err(Refusal::TooBig);
    }
    Ok(product * odd)
}

// How many words of a degree there are over a radix: 1 if the degree is above 64; 9.
pub fn count(radix: u64, degree: u64) -> Result<u64, Refusal>
    ensures { answer_says result ≡ digit_count_says radix degree }
{
    if 64 < degree {
        return Err(Refusal::TooWide);
    }
    power(radix, degree)
}

// The checks of a given word: those of its count; 3 if its rank is not below that. The answer is the count.
pub fn check(x: DigitWord) -> Result<u64, Refusal>
    ensures { answer_says result ≡ check_says x }
{
    let radix = x.radix;
    let degree = x.degree;
    let rank = x.rank;
    let c = count(radix, degree)?;
    if c <= rank {
        return Err(Refusal::NoSuchRank);
    }
    Ok(c)
}

// Writes the symbols, that of position 0 first.
fn write_symbols(radix: u64, degree: u64, rank: u64, out: &mut [u64])
    requires { (rank < radix ^ degree) × (degree ≤ length out.old) }
    ensures { out.new ≡ after (gives (digits_of (replicate degree radix) rank)) out.old }
{
    let mut left = rank;
    for i in 0..degree {
        out[i as usize] = left % radix;
        left /= radix;
    }
}

// The symbols of a word, written into a lent output: 1, 9, 3; 8. The answer is how many places are written.
pub fn symbols(x: DigitWord, out: &mut [u64]) -> Result<u64, Refusal>
    ensures says { answer_says result ≡ places_of (symbols_says x (length out.old)) }
    ensures holds { out.new ≡ after (symbols_says x (length out.old)) out.old }
{
    let radix = x.radix;
    let degree = x.degree;
    let rank = x.rank;
    check(x)?;
    if (out.len() as u64) < degree {
        return Err(Refusal::Shape);
    }
    write_symbols(radix, degree, rank, out);
    Ok(degree)
}

// The symbol at a position of a word: 1, 9, 3; 7 if it has no such position.
pub fn symbol(x: DigitWord, p: u64) -> Result<u64, Refusal>
    ensures { answer_says result ≡ digit_symbol_says x p }
{
    let radix = x.radix;
    let degree = x.degree;
    let rank = x.rank;
    check(x)?;
    if degree <= p {
        return Err(Refusal::Outside);
    }
    let stride = power(radix, p)?;
    Ok(rank / stride % radix)
}

// The symbols as a positional number, from the highest position down.
fn number(radix: u64, symbols: &[u64]) -> u64
    requires { Below radix symbols.now × (radix ^ length symbols.now < 2 ^ 64) }
    ensures { result ≡ positional_value (replicate (length symbols.now) radix) symbols.now }
{
    let mut above: u64 = 0;
    for i in (0..symbols.len()).rev() {
        above = above * radix + symbols[i];
    }
    above
}

// The word of the given symbols over a radix: 1 if there are more than 64; 7 if one is not below the radix; 9.
pub fn from_symbols(radix: u64, symbols: &[u64]) -> Result<DigitWord, Refusal>
    ensures { answer_says result ≡ from_symbols_says radix symbols.now }
{
    let degree = symbols.len() as u64;
    if 64 < degree {
        return Err(Refusal::TooWide);
    }
    if packing::reaches(radix, symbols) {
        return Err(Refusal::Outside);
    }
    let _ = power(radix, degree)?;
    let rank = number(radix, symbols);
    Ok(DigitWord {
        radix,
        degree,
        rank,
    })
}
