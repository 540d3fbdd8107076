// Document 01's program, from standard input to standard output: reads one line and writes the words that it asks for. Later input is
// ignored.
#![tactic(auto)]

ghost use Rattle.std.specs.Prelude.{◌≤◌, ◌<◌, length, IfOk};
ghost use Rattle.terms_line.specs.Line.{line_limit};

use std::io;
use std::io::Read;

// Reads once from a reader into a lent buffer, and answers how many bytes came: 0 at the end of the input.
fn read_some(from: &mut impl Read, buffer: &mut [u8]) -> io::Result<usize>
    ensures { IfOk result (λ n. n ≤ length buffer.new) }
{
    from.read(buffer)
}

// Reads until a newline has come, the input ends or the buffer is full, and answers how many bytes came. The buffer is longer than every
// good line, so a line that fills it is bad, whatever follows (`terms_line::first`).
fn read_line(from: &mut impl Read, buffer: &mut [u8]) -> io::Result<usize>
    requires { line_limit < length buffer.old }
    ensures { IfOk result (λ n. n ≤ length buffer.new) }
{
    let mut n = 0;
    // A turn goes on by as many bytes as came, which no range says.
    while n < buffer.len() {
        let k = read_some(from, &mut buffer[n..])?;
        if k == 0 {
            return Ok(n);
        }
        let m = n + k;
        if text::find(&buffer[n..m], 0, b'\n') < k {
            return Ok(m);
        }
        n = m;
    }
    Ok(n)
}

// The answer to the first line of what a reader gives.
pub fn answer_first(rt: &impl Print, from: &mut impl Read) -> io::Result<()> {
    let mut buffer = [0u8; 64];
    let n = read_line(from, &mut buffer)?;
    terms_answer::answer(rt, &buffer[0..n])
}

// The program, whole.
pub fn run(rt: &(impl Input + Print)) -> io::Result<()> {
    let mut from = rt.reader();
    answer_first(rt, &mut from)
}
