#![tactic(auto)]

use std::io;
use std::process::ExitCode;

// Checks an image of coefficient tables, makes one, or looks a term up, as its arguments say.
fn main(rt: HostRuntime) -> io::Result<ExitCode> {
    imaging::run(&rt, &rt.stderr())
}
