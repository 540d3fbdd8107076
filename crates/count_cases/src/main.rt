#![tactic(auto)]

use std::io;

// Runs the code's answers at the edges of its tables: each line is held to crates/count_cases/stdout.
fn main(rt: HostRuntime) -> io::Result<()> {
    line(&rt, count::binomial(64, 32))?;
    line(&rt, count::binomial(65, 1))?;
    line(&rt, count::binomial(64, 64))?;
    line(&rt, count::binomial(3, 5))?;
    line(&rt, count::factorial(20))?;
    line(&rt, count::factorial(21))
}

// A number on a line of its own.
fn line(rt: &impl Print, n: u64) -> io::Result<()> {
    println!(rt; "{n}")
}
