// Multiplicities, the stabilizer, concatenation and deletion of digit words (document 01, "Shapes, digit words, exponents").
#![tactic(auto)]

ghost use Rattle.std.specs.Prelude.{◌≡◌, ◌<◌, ◌≤◌, length, take};
ghost use Rattle.words.specs.Inversions.{multiplicity as multiplicity_of};
ghost use Rattle.answers.specs.Says.{answer_says};
ghost use Rattle.cartesian.specs.Checks.{number_says};
ghost use Rattle.deletion.specs.Multiplicities.{stabilizer_of};
ghost use Rattle.digits_algebra.specs.Rules.{multiplicity_says, digit_stabilizer_says, concat_says, digit_delete_says};

use answers::Refusal;
use digits::{DigitWord, TakenOut};

// How many of the first places of the slice hold s.
fn occurrences(word: &[u64], upto: u64, s: u64) -> u64
    requires { upto ≤ length word.now }
    ensures { result ≡ multiplicity_of s (take upto word.now) }
{
    let mut n: u64 = 0;
    for x in &word[..upto as usize] {
        if *x == s {
            n += 1;
        }
    }
    n
}

// How many positions of a word carry the symbol s: 1, 9, 3. None carries a symbol that is not below the radix.
pub fn multiplicity(x: DigitWord, s: u64) -> Result<u64, Refusal>
    ensures { answer_says result ≡ multiplicity_says x s }
{
    let mut word = [0u64; 64];
    let k = digits::symbols(x, &mut word)?;
    Ok(occurrences(&word, k, s))
}

// The product of the factorials of the multiplicities of the first symbols of the slice: 9 if it is 2^64 or more. Each position multiplies it by how often its
// symbol has occurred by then.
fn stabilizer_of(word: &[u64], upto: u64) -> Result<u64, Refusal>
    requires { upto ≤ length word.now }
    ensures { answer_says result ≡ number_says (stabilizer_of (take upto word.now)) }
{
    let mut product: u64 = 1;
    for i in 0..upto {
        let times = occurrences(word, i + 1, word[i as usize]);
        if cartesian::exceeds(product, times) {
            return Err(Refusal::TooBig);
        }
        product *= times;
    }
    Ok(product)
}

// The stabilizer of a word: 1, 9, 3; 9 if the product of the factorials of its multiplicities is 2^64 or more.
pub fn stabilizer(x: DigitWord) -> Result<u64, Refusal>
    ensures { answer_says result ≡ digit_stabilizer_says x }
{
    let mut word = [0u64; 64];
    let k = digits::symbols(x, &mut word)?;
    stabilizer_of(&word, k)
}

// The word of the symbols of x, which stand lowest, followed by those of y: the checks of x; those of y; 8 if the radices differ; 1; 9.
pub fn concat(x: DigitWord, y: DigitWord) -> Result<DigitWord, Refusal>
    ensures { answer_says result ≡ concat_says x y }
{
    let radix = x.radix;
    let low = x.rank;
    let high = y.rank;
    let stride = digits::check(x)?;
    let others = digits::check(y)?;
    if radix != y.radix {
        return Err(Refusal::Shape);
    }
    let degree = x.degree + y.degree;
    if 64 < degree {
        return Err(Refusal::TooWide);
    }
    if cartesian::exceeds(stride, others) {
        return Err(Refusal::TooBig);
    }
    let rank = low + high * stride;
    Ok(DigitWord {
        radix,
        degree,
        rank,
    })
}

// The symbol at a position, and the word without it: 1, 9, 3; 7 if there is no such position. The positions above slide down and close the gap.
pub fn delete(x: DigitWord, p: u64) -> Result<TakenOut, Refusal>
    ensures { answer_says result ≡ digit_delete_says x p }
{
    let radix = x.radix;
    let rank = x.rank;
    digits::check(x)?;
    if x.degree <= p {
        return Err(Refusal::Outside);
    }
    let stride = digits::power(radix, p)?;
    let symbol = rank / stride % radix;
    let degree = x.degree - 1;
    let rank = rank % stride + rank / stride / radix * stride;
    Ok(TakenOut {
        symbol,
        left: DigitWord {
            radix,
            degree,
            rank,
        },
    })
}
