// Terms in lexicographic order over a fixed alphabet, the lowest position the most significant (document 02, section 11): the order of old tables. Widening the
// alphabet renumbers terms in this order.
#![tactic(auto)]

ghost use Rattle.std.specs.Prelude.{◌≡◌, length};
ghost use Rattle.answers.specs.Says.{answer_says, places_of, after};
ghost use Rattle.lexical.specs.Rules.{lex_rank_says, lex_unrank_says, lex_successor_says};

use answers::Refusal;
use words::Family;

// The lexicographic rank of a word over n: how many words of as many symbols below n are earlier. Refused as packing is: 1, 2 with its position, 1, 7.
pub fn rank(family: Family, n: u64, word: &[u64]) -> Result<u64, Refusal>
    ensures { answer_says result ≡ lex_rank_says family n word.now }
{
    let x = monotone::pack(family, n, word)?;
    let bits = x.bits;
    Ok(mirroring::place(family, n, word.len() as u64, bits))
}

// The word of k symbols below n that has the lexicographic rank r, written into a lent output: refused as the count is; 3 if r is not below the count; 8, last, if
// the output is too short. The answer is how many places are written.
pub fn unrank(family: Family, n: u64, k: u64, r: u64, out: &mut [u64]) -> Result<u64, Refusal>
    ensures says { answer_says result ≡ places_of (lex_unrank_says family n k r (length out.old)) }
    ensures holds { out.new ≡ after (lex_unrank_says family n k r (length out.old)) out.old }
{
    let c = monotone_count::count(family, n, k)?;
    if c <= r {
        return Err(Refusal::NoSuchRank);
    }
    if (out.len() as u64) < k {
        return Err(Refusal::Shape);
    }
    packing::spell(family, mirroring::at_place(family, n, k, r), out);
    Ok(k)
}

// The next word of as many symbols below n in lexicographic order, written into a lent output: refused as packing is; 4 if no such word is later; 8, last, if the
// output is too short. The answer is how many places are written.
pub fn successor(family: Family, n: u64, word: &[u64], out: &mut [u64]) -> Result<u64, Refusal>
    ensures says { answer_says result ≡ places_of (lex_successor_says family n word.now (length out.old)) }
    ensures holds { out.new ≡ after (lex_successor_says family n word.now (length out.old)) out.old }
{
    monotone::pack(family, n, word)?;
    let r = raising::raisable(family, n, word);
    if r == 0 {
        return Err(Refusal::Last);
    }
    if out.len() < word.len() {
        return Err(Refusal::Shape);
    }
    raising::write_next(family, word, r, out);
    Ok(word.len() as u64)
}
