// The next word in lexicographic order over a fixed alphabet, on slices (document 02, section 11; Knuth 7.2.1.3): the highest symbol that can be raised is raised
// by one, and those above it fall back to the lowest that can stand there.
#![tactic(auto)]

ghost use Rattle.std.specs.Prelude.{◌≡◌, ◌≤◌, ◌<◌, length};
ghost use Rattle.words.specs.Next.{highest as highest_of, base as base_of};
ghost use Rattle.answers.specs.Says.{after, gives};
ghost use Rattle.raising.specs.Raised.{Raise, CanWrite, raised_at, next_at};

use words::Family;

// The greatest symbol that can stand d places below the top of a word over n.
fn highest(family: Family, n: u64, d: u64) -> u64
    ensures { result ≡ highest_of family n d }
{
    let top = n.saturating_sub(1);
    match family {
        Family::Forbidden => top.saturating_sub(d),
        Family::Allowed => top,
    }
}

// The position after the highest symbol that can be raised over n; 0 if none can.
pub fn raisable(family: Family, n: u64, word: &[u64]) -> usize
    ensures { Raise family n word.now result }
{
    let k = word.len();
    for i in (0..k).rev() {
        if word[i] < highest(family, n, (k - 1 - i) as u64) {
            return i + 1;
        }
    }
    0
}

// The lowest symbol that a word can have d places above a 0.
fn base(family: Family, d: u64) -> u64
    ensures { result ≡ base_of family d }
{
    match family {
        Family::Forbidden => d,
        Family::Allowed => 0,
    }
}

// The symbol at position j of the next word, where the symbol before position r is raised.
fn next_symbol(family: Family, word: &[u64], r: usize, j: usize) -> u64
    requires { CanWrite word.now r × (j < length word.now) }
    ensures { result ≡ next_at family word.now r j }
{
    if j + 1 < r {
        return word[j];
    }
    word[r - 1] + 1 + base(family, (j + 1 - r) as u64)
}

// Writes the next word, where the symbol before position r is raised.
pub fn write_next(family: Family, word: &[u64], r: usize, out: &mut [u64])
    requires { CanWrite word.now r × (length word.now ≤ length out.old) }
    ensures { out.new ≡ after (gives (raised_at family word.now r)) out.old }
{
    for j in 0..word.len() {
        out[j] = next_symbol(family, word, r, j);
    }
}
