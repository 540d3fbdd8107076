// How many wide terms there are (document 02, section 9).
#![tactic(auto)]

ghost use Rattle.std.specs.Prelude.{◌≡◌, ◌≤◌};
ghost use Rattle.words.specs.Word.{shifted_alphabet};
ghost use Rattle.answers.specs.Says.{answer_says};
ghost use Rattle.wide.specs.Rules.{wide_count_says};

use answers::Refusal;
use words::Family;

// The alphabet of the shifted words: n for Forbidden or degree 0, otherwise n + k - 1.
pub fn shifted_alphabet(family: Family, n: u64, k: u64) -> u64
    requires { (n ≤ 128) × (k ≤ 128) }
    ensures { result ≡ shifted_alphabet family n k }
{
    if k == 0 {
        return n;
    }
    n + words::shift(family, k - 1)
}

// How many words of k symbols below n there are: 1 if k or the shifted alphabet is above 128; 9 if there are 2^64 or more.
pub fn count(family: Family, n: u64, k: u64) -> Result<u64, Refusal>
    ensures { answer_says result ≡ wide_count_says family n k }
{
    if 128 < k {
        return Err(Refusal::TooWide);
    }
    if 128 < n {
        return Err(Refusal::TooWide);
    }
    let alphabet = shifted_alphabet(family, n, k);
    if 128 < alphabet {
        return Err(Refusal::TooWide);
    }
    let c = wide_table::at(alphabet, k);
    if c == u64::MAX {
        return Err(Refusal::TooBig);
    }
    Ok(c)
}
