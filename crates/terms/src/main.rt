#![tactic(auto)]

use std::io;

// Document 01's program.
fn main(rt: HostRuntime) -> io::Result<()> {
    terms_input::run(&rt)
}
