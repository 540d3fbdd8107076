#![tactic(auto)]

use std::io;

// The program `oldtable` on a table with a bad entry: one line says where, and nothing of the table is written.
fn main(rt: HostRuntime) -> io::Result<()> {
    oldtable_text::run(&rt)
}
