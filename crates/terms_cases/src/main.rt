#![tactic(auto)]

use std::io;

// Runs the work of the program `terms` on every line of its input, so that the gate holds each kind of line to what is written for it.
fn answer_each(rt: &impl Print, input: &[u8]) -> io::Result<()> {
    let mut at = 0;
    // The loop goes from line to line by where each one ends: what a split gives is one line more after the last newline.
    while at < input.len() {
        let end = text::find(input, at, b'\n');
        terms_answer::answer(rt, &input[at..end])?;
        at = end;
        if at < input.len() {
            at += 1;
        }
    }
    Ok(())
}

fn main(rt: HostRuntime) -> io::Result<()> {
    let mut buffer = [0u8; 65536];
    let n = streams::read_full(&rt, &mut buffer)?;
    answer_each(&rt, &buffer[..n])
}
