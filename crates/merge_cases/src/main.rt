// Runs the laws of merging (docs/RULES.md, section 6; crate merge_laws) over the library's own calls: for each space of cases a line with what the
// calls answered and how many cases differ from a law, and then the first of those. crates/merge_cases/stdout has 0 that differ.
#![tactic(auto)]

mod laws; // laws.rt: the laws of two records and of three
mod spaces; // spaces.rt: the cases

use laws::Triple;
use spaces::Space;
use std::io;

// What the cases of a space came to; `first` is the last that was found to differ, if any was, the cases being run from the last to the first.
#[derive(Clone, Copy)]
struct Tally {
    answered: u64,
    with_1: u64,
    with_5: u64,
    with_6: u64,
    with_7: u64,
    differ: u64,
    first: Option<Triple>,
    seed: u64,
}

fn main(rt: HostRuntime) -> io::Result<()> {
    line(
        &rt,
        "exchanges of any two small records: ",
        Space::Pairs,
        25600,
    )?;
    line(
        &rt,
        "exchanges of any two records at the limits: ",
        Space::LimitPairs,
        576,
    )?;
    line(&rt, "small sets: ", Space::Small(false), 512000)?;
    line(
        &rt,
        "small words with repeats: ",
        Space::Small(true),
        512000,
    )?;
    line(&rt, "sets at the limits: ", Space::Limits(false), 1728)?;
    line(
        &rt,
        "words with repeats at the limits: ",
        Space::Limits(true),
        1728,
    )?;
    line(&rt, "wide sets: ", Space::Wide(false), 12000)?;
    line(&rt, "wide words with repeats: ", Space::Wide(true), 12000)
}

// The line of a space.
fn line(rt: &impl Print, name: &str, space: Space, size: u64) -> io::Result<()> {
    let tally = counted(space, size);
    rt.print(name)?;
    part(rt, tally.answered, " answered, ")?;
    part(rt, tally.with_1, " refused with 1, ")?;
    part(rt, tally.with_5, " with 5, ")?;
    part(rt, tally.with_6, " with 6, ")?;
    part(rt, tally.with_7, " with 7, ")?;
    part(rt, tally.differ, " differ\n")?;
    if let Some(first) = tally.first {
        rt.print("the first:")?;
        record(rt, first.x)?;
        record(rt, first.y)?;
        record(rt, first.z)?;
        rt.print("\n")?;
    }
    Ok(())
}

// A number, and what stands behind it.
fn part(rt: &impl Print, n: u64, after: &str) -> io::Result<()> {
    print!(rt; "{n}{after}")
}

// A record as the program ask writes one: its family, alphabet and bits.
fn record(rt: &impl Print, x: answers::Index) -> io::Result<()> {
    match x.family {
        words::Family::Forbidden => rt.print(" forbidden ")?,
        words::Family::Allowed => rt.print(" allowed ")?,
    }
    part(rt, x.alphabet, " ")?;
    part(rt, x.bits, "")
}

// The cases of a space, from the last to the first.
fn counted(space: Space, size: u64) -> Tally {
    let mut tally = empty();
    for t in (0..size).rev() {
        tally = with_case(tally, space, t);
    }
    tally
}

fn empty() -> Tally {
    Tally {
        answered: 0,
        with_1: 0,
        with_5: 0,
        with_6: 0,
        with_7: 0,
        differ: 0,
        first: None,
        seed: 88172645463325252,
    }
}

// One case more: a pair is held to the law of two, a triple of accepted records to those of three.
fn with_case(tally: Tally, space: Space, t: u64) -> Tally {
    let seed = spaces::next(tally.seed);
    let case = spaces::triple(space, t, seed);
    if spaces::is_of_two(space) {
        let x = case.x;
        let y = case.y;
        return noted(tally, seed, case, laws::of_two(x, y), laws::exchanges(x, y));
    }
    if laws::accepted(case) {
        return noted(tally, seed, case, laws::of_three(case), laws::hold(case));
    }
    let mut out = tally;
    out.seed = seed;
    out
}

// The number of a case's refusal, and whether its laws hold.
fn noted(tally: Tally, seed: u64, case: Triple, number: Option<u64>, holds: bool) -> Tally {
    let first = if holds { tally.first } else { Some(case) };
    Tally {
        answered: more(tally.answered, number.is_none()),
        with_1: more(tally.with_1, number == Some(1)),
        with_5: more(tally.with_5, number == Some(5)),
        with_6: more(tally.with_6, number == Some(6)),
        with_7: more(tally.with_7, number == Some(7)),
        differ: more(tally.differ, !holds),
        first,
        seed,
    }
}

// One more if so.
fn more(n: u64, so: bool) -> u64 {
    if so {
        return std::num::wrapping_add_u64(n, 1);
    }
    n
}
