// The derivative of an Allowed table of signed coefficients by one of its symbols (document 02, section 10): a table of one degree less.
#![tactic(auto)]

ghost use Rattle.std.specs.Prelude.{◌≡◌, true, ◌++◌, ◌+◌, ◌≤◌, ◌<◌, pos, ◌*ℤ◌, length, drop, get_or};
ghost use Rattle.words.specs.declared.Family.TheVariants.{Allowed};
ghost use Rattle.words.specs.Word.{count as count_of};
ghost use Rattle.answers.specs.Says.{answer_says};
ghost use Rattle.derivatives.specs.Derivative.{entries_of};
ghost use Rattle.products.specs.Range.{inside};
ghost use Rattle.derivative.specs.Rules.{entry_at, all_inside, derivative_says, table_after, table_places, Deriving};

use adding::Place;
use answers::Refusal;
use words::Family;

// How many words of k symbols below n there are; they are not too wide.
fn size(n: u64, k: u64) -> u64
    requires { (n + k ≤ 65) × (n ≤ 64) × (k ≤ 64) }
    ensures { result ≡ count_of Allowed n k }
{
    count::at(taking::shifted_alphabet(Family::Allowed, n, k), k)
}

// Whether the entry that comes from a place is in the range.
fn entry_fits(table: &[i64], x: Place) -> bool
    requires { (x.rank < length table.now) × (1 ≤ x.times) × (x.times ≤ 64) }
    ensures { result ≡ inside (get_or table.now x.rank (pos 0) *ℤ pos x.times) }
{
    let q = x.rank as usize;
    let c = table[q];
    products::fits(c, x.times)
}

// The entry that comes from a place; it is in the range.
fn entry(table: &[i64], x: Place) -> i64
    requires { (x.rank < length table.now) × (x.times ≤ 64) × (inside (get_or table.now x.rank (pos 0) *ℤ pos x.times) ≡ true) }
    ensures { result ≡ get_or table.now x.rank (pos 0) *ℤ pos x.times }
{
    let q = x.rank as usize;
    let c = table[q];
    products::product(c, x.times)
}

// Whether all m entries are in the range: the pass before the first is written.
fn judge(k: u64, s: u64, m: u64, table: &[i64]) -> bool
    requires { Deriving k s m table.now }
    ensures { result ≡ all_inside (entry_at k s table.now) m }
{
    let last = m - 1;
    let mut x = adding::start(k, s);
    for _r in 0..last {
        if !entry_fits(table, x) {
            return false;
        }
        x = adding::step(s, x);
    }
    entry_fits(table, x)
}

// Writes the m entries, all of which are in the range.
fn write(k: u64, s: u64, m: u64, table: &[i64], out: &mut [i64])
    requires { Deriving k s m table.now × (all_inside (entry_at k s table.now) m ≡ true) × (m ≤ length out.old) }
    ensures { out.new ≡ entries_of (entry_at k s table.now) m ++ drop m out.old }
{
    let last = m - 1;
    let mut x = adding::start(k, s);
    for r in 0..last {
        let y = entry(table, x);
        let i = r as usize;
        out[i] = y;
        x = adding::step(s, x);
    }
    let y = entry(table, x);
    let i = last as usize;
    out[i] = y;
}

// The derivative by s of a table of degree k over n symbols, written into a lent output: 1 if k or the shifted alphabet is above 64; 7 for degree 0; 7 if s is
// not below n; 8 if the table has not exactly its count; 8 if the output is short; 9 if an entry is outside i64, and then nothing is written. The answer is
// how many places are written.
pub fn derivative(n: u64, k: u64, s: u64, table: &[i64], out: &mut [i64]) -> Result<u64, Refusal>
    ensures says { answer_says result ≡ table_places (derivative_says n k s table.now (length out.old)) }
    ensures holds { out.new ≡ table_after (derivative_says n k s table.now (length out.old)) out.old }
{
    if 64 < k {
        return Err(Refusal::TooWide);
    }
    if taking::too_wide(Family::Allowed, n, k) {
        return Err(Refusal::TooWide);
    }
    if k == 0 {
        return Err(Refusal::Outside);
    }
    if n <= s {
        return Err(Refusal::Outside);
    }
    let have = table.len() as u64;
    let want = size(n, k);
    if have != want {
        return Err(Refusal::Shape);
    }
    let d = k - 1;
    let m = size(n, d);
    if (out.len() as u64) < m {
        return Err(Refusal::Shape);
    }
    if !judge(d, s, m, table) {
        return Err(Refusal::TooBig);
    }
    write(d, s, m, table, out);
    Ok(m)
}
