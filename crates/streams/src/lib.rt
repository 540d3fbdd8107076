// Standard input and output in blocks, through buffers that the caller lends.
#![tactic(auto)]

ghost use Rattle.std.specs.Prelude.{◌+◌, ◌≤◌, length, IfOk};

use std::io;
use std::io::Read;

// Reads once from standard input into a lent buffer, and answers how many bytes came: 0 at the end of the input.
pub fn read_some(rt: &impl Input, buffer: &mut [u8]) -> io::Result<usize>
    ensures { IfOk result (λ n. n ≤ length buffer.new) }
{
    let mut from = rt.reader();
    from.read(buffer)
}

// Reads from standard input until a lent buffer is full or the input ends, and answers how many bytes came.
pub fn read_full(rt: &impl Input, buffer: &mut [u8]) -> io::Result<usize>
    ensures { IfOk result (λ n. n ≤ length buffer.new) }
{
    let mut n = 0;
    // A turn goes on by as many bytes as came, which no range says.
    while n < buffer.len() {
        let k = read_some(rt, &mut buffer[n..])?;
        if k == 0 {
            return Ok(n);
        }
        n += k;
    }
    Ok(n)
}

// Writes the first `at` bytes of a buffer to standard output.
pub fn flush(rt: &impl Print, out: &[u8], at: usize) -> io::Result<()> {
    if at <= out.len() {
        rt.write_all(&out[0..at])?;
    }
    Ok(())
}

// The place where the next `room` bytes go: `at`, or 0 after the buffer is written out where they would not fit after `at`.
pub fn with_room(rt: &impl Print, out: &[u8], at: usize, room: usize) -> io::Result<usize>
    ensures { IfOk result (λ to. room ≤ length out.now → to + room ≤ length out.now) }
{
    if at <= out.len() {
        if room <= out.len() - at {
            return Ok(at);
        }
    }
    flush(rt, out, at)?;
    Ok(0)
}
