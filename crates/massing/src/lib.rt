// The program `mass` (docs/RULES.md, section 22): the first line is the image of a surface as hex digits, and each line after it two readings with their frames. One line is
// written for each of these, until the end of the input.
#![tactic(auto)]

ghost use Rattle.std.specs.Prelude.{◌≡◌, ◌≤◌, length};

use std::io;

// How far the input is read: how many lines have ended, how many bytes the surface has, and where the next answer goes.
#[derive(Clone, Copy)]
struct Progress {
    lines: u64,
    size: usize,
    at: usize,
}

// Takes the surface from the first line. What is no text of bytes is said, and the surface has then no bytes.
fn take_surface(line: &[u8], surface: &mut [u8], out: &mut [u8], at: usize) -> Progress {
    if !spelling::is_bytes(line) {
        let at = text::put(
            out,
            at,
            b"the image is an even number of hex digits, or -\n",
        );
        return Progress {
            lines: 1,
            size: 0,
            at,
        };
    }
    let size = spelling::bytes(line, surface);
    Progress { lines: 1, size, at }
}

// One line more.
fn next(lines: u64) -> u64 {
    if lines < u64::MAX {
        return lines + 1;
    }
    lines
}

// Answers a line of readings: the lines before it are the image and as many others as it is the next of. No answer takes more than 128 bytes.
fn answer(
    rt: &impl Print,
    line: &[u8],
    surface: &[u8],
    out: &mut [u8],
    p: Progress,
) -> io::Result<Progress> {
    let at = streams::with_room(rt, out, p.at, 128)?;
    let at = mass_text::put_answer(out, at, surface, line, p.lines);
    let at = text::put_byte(out, at, b'\n');
    Ok(Progress {
        lines: next(p.lines),
        size: p.size,
        at,
    })
}

// The same of a line that is held: a longer one is no line of readings.
fn answer_held(
    rt: &impl Print,
    line: &[u8],
    held: usize,
    surface: &mut [u8],
    out: &mut [u8],
    p: Progress,
) -> io::Result<Progress> {
    if held > line.len() {
        return Ok(p);
    }
    if p.lines == 0 {
        return Ok(take_surface(&line[0..held], surface, out, p.at));
    }
    let size = p.size;
    if size > surface.len() {
        return Ok(p);
    }
    answer(rt, &line[0..held], &surface[0..size], out, p)
}

// Holds one more byte of a line, where there is room for it. There is room for one byte more than the digits of an image, so a line that is cut here is
// neither an image nor readings.
fn hold(line: &mut [u8], held: usize, b: u8) -> usize {
    if held < line.len() {
        line[held] = b;
        return held + 1;
    }
    held
}

// Where a line that is read goes on: how many bytes of it are held, and how far the input is read.
#[derive(Clone, Copy)]
struct Held {
    bytes: usize,
    progress: Progress,
}

// Takes one byte: it ends a line, or is held.
fn take(
    rt: &impl Print,
    line: &mut [u8],
    h: Held,
    b: u8,
    surface: &mut [u8],
    out: &mut [u8],
) -> io::Result<Held> {
    let progress = h.progress;
    if b == b'\n' {
        let progress = answer_held(rt, line, h.bytes, surface, out, progress)?;
        return Ok(Held { bytes: 0, progress });
    }
    let bytes = hold(line, h.bytes, b);
    Ok(Held { bytes, progress })
}

// Answers the lines that end in a block, and holds what stands after the last of them.
fn answer_block(
    rt: &impl Print,
    block: &[u8],
    line: &mut [u8],
    before: Held,
    surface: &mut [u8],
    out: &mut [u8],
) -> io::Result<Held> {
    let mut h = before;
    for b in block {
        h = take(rt, line, h, *b, surface, out)?;
    }
    Ok(h)
}

// Writes the answers out, so that whoever waits for them has them; the next go to the beginning of the buffer.
fn written(rt: &impl Print, out: &[u8], h: Held) -> io::Result<Held> {
    let p = h.progress;
    streams::flush(rt, out, p.at)?;
    let progress = Progress {
        lines: p.lines,
        size: p.size,
        at: 0,
    };
    Ok(Held {
        bytes: h.bytes,
        progress,
    })
}

// A last line without a newline is a line.
fn finish(
    rt: &impl Print,
    line: &[u8],
    h: Held,
    surface: &mut [u8],
    out: &mut [u8],
) -> io::Result<()> {
    let p = h.progress;
    if h.bytes > 0 {
        let p = answer_held(rt, line, h.bytes, surface, out, p)?;
        streams::flush(rt, out, p.at)?;
    }
    Ok(())
}

fn start() -> Held {
    let progress = Progress {
        lines: 0,
        size: 0,
        at: 0,
    };
    Held { bytes: 0, progress }
}

// Answers the input block by block. Nothing says that an input ends, so the blocks are counted up to a number that no run reaches.
fn answer_input(
    rt: &(impl Input + Print),
    block: &mut [u8],
    line: &mut [u8],
    surface: &mut [u8],
    out: &mut [u8],
) -> io::Result<()> {
    let mut h = start();
    for _ in 0..u64::MAX {
        let n = streams::read_some(rt, block)?;
        if n == 0 {
            return finish(rt, line, h, surface, out);
        }
        h = answer_block(rt, &block[0..n], line, h, surface, out)?;
        h = written(rt, out, h)?;
    }
    Ok(())
}

// The program, whole. A good image has at most 65,536 bytes, and one byte more tells that a longer one is bad; so a line has at most 131,074 digits.
pub fn run(rt: &(impl Input + Print)) -> io::Result<()> {
    let mut block = [0u8; 65536];
    let mut line = [0u8; 131075];
    let mut surface = [0u8; 65537];
    let mut out = [0u8; 65536];
    answer_input(rt, &mut block, &mut line, &mut surface, &mut out)
}
