#![tactic(auto)]

use std::io;

// Converts the text of an old table, from standard input to standard output.
fn main(rt: HostRuntime) -> io::Result<()> {
    oldtable_text::run(&rt)
}
