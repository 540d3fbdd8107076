// The rank of a wide term, given as a word or as an index (document 02, section 9).
#![tactic(auto)]

ghost use Rattle.std.specs.Prelude.{◌≡◌, ◌≤◌, ltb, length};
ghost use Rattle.words.specs.Word.{Below, shifted};
ghost use Rattle.words.specs.Rank.{rank_of};
ghost use Rattle.packing.specs.Checks.{last_shifted};
ghost use Rattle.answers.specs.Says.{answer_says};
ghost use Rattle.widths.specs.Rules.{held_says};
ghost use Rattle.wide.specs.Rules.{wide_rank_says, wide_rank_of_says};

use answers::Refusal;
use wide::Wide;
use wide_bits::Halves;
use words::Family;

// The rank of an index: 9 if it is 2^64 or more.
pub fn rank_of(x: Wide) -> Result<u64, Refusal>
    ensures { answer_says result ≡ wide_rank_of_says x }
{
    let low = x.low;
    let high = x.high;
    wide_ranking::rank(Halves { low, high })
}

// Whether the last shifted symbol is above 127. The sum is never formed: the symbol is held against what its position leaves.
fn past_top(family: Family, word: &[u64]) -> bool
    requires { length word.now ≤ 128 }
    ensures { result ≡ ltb 127 (last_shifted family word.now) }
{
    let n = word.len();
    if n == 0 {
        return false;
    }
    let room = 127 - words::shift(family, (n - 1) as u64);
    room < word[n - 1]
}

// The sum of the weights of a word's symbols: 9 if it is 2^64 or more. A weight that is 2^64 or more decides, and so does a sum that would be; each is judged before it is formed.
fn weighed(family: Family, word: &[u64]) -> Result<u64, Refusal>
    requires { (length word.now ≤ 128) × Below 128 (shifted family word.now) }
    ensures { answer_says result ≡ held_says (rank_of family word.now) }
{
    let mut sum: u64 = 0;
    for (i, x) in word.iter().enumerate() {
        let s = *x + words::shift(family, i as u64);
        let c = wide_table::at(s, (i + 1) as u64);
        if c == u64::MAX {
            return Err(Refusal::TooBig);
        }
        if u64::MAX - sum < c {
            return Err(Refusal::TooBig);
        }
        sum += c;
    }
    Ok(sum)
}

// The rank of a word: 1 if its length is above 128; 2 if it breaks its family's rule, with the position where it does; 1 if its last shifted symbol is above 127; 9 if the rank is 2^64 or more.
pub fn rank(family: Family, word: &[u64]) -> Result<u64, Refusal>
    ensures { answer_says result ≡ wide_rank_says family word.now }
{
    if 128 < word.len() {
        return Err(Refusal::TooWide);
    }
    let at = packing::break_at(family, word);
    if at < word.len() as u64 {
        return Err(Refusal::NotMonotone(at));
    }
    if past_top(family, word) {
        return Err(Refusal::TooWide);
    }
    weighed(family, word)
}
