#![tactic(auto)]

use std::io;

// The masses of frames by one surface: the image as hex digits in the first line, then two readings a line, each with its frame.
fn main(rt: HostRuntime) -> io::Result<()> {
    massing::run(&rt)
}
