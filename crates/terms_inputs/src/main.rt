#![tactic(auto)]

use std::rt::Files;
use std::{fs, io};

// Document 01's program on inputs that would show a line that is cut, each a file of data/: no input at all; a good line of 51 bytes, the longest, and further
// lines after it; the same with one digit more and no newline; a good line with spaces after it, 63 bytes in all; one with digits after it, 64 bytes in all, and
// 65 and a good line after it. The gate holds it to what is written for them.
fn answer(rt: &(impl Files + Print), path: &str) -> io::Result<()> {
    match fs::open(rt, path) {
        Ok(mut from) => terms_input::answer_first(rt, &mut from),
        Err(_) => rt.write_all(b"no such file\n"),
    }
}

fn main(rt: HostRuntime) -> io::Result<()> {
    answer(&rt, "none")?;
    answer(&rt, "51")?;
    answer(&rt, "52")?;
    answer(&rt, "63")?;
    answer(&rt, "64")?;
    answer(&rt, "65")
}
