#![tactic(auto)]

use std::io;

// One request a line on standard input, one answer a line on standard output.
fn main(rt: HostRuntime) -> io::Result<()> {
    asking::run(&rt)
}
