// Runs the work of the program `image` on every line of its input, so that the gate holds each kind of image and of description to what is told of
// it. A line that begins with `check ` goes on with the bytes of an image as hex digits, and one with `make ` with a description in which `|` stands
// for the end of a line; the image that is made is written as hex digits.
#![tactic(auto)]

use imaging::Told;
use std::io;

// What is told of the image that a word of hex digits writes.
fn check_word(rt: &impl Print, word: &[u8]) -> io::Result<()> {
    let mut image = [0u8; 4096];
    let mut out = [0u8; 65536];
    let n = spelling::bytes(word, &mut image);
    if n > 4096 {
        return Ok(());
    }
    let p = pieces::feed(pieces::start(), &image[0..n]);
    let told = imaging::put_verdict(&mut out, pieces::end(p));
    streams::flush(rt, &out, told.end)
}

// Puts a byte of a description at its place, and the end of a line for `|`.
fn put_at(lines: &mut [u8], i: usize, b: u8) {
    if i >= lines.len() {
        return;
    }
    if b == b'|' {
        lines[i] = b'\n';
        return;
    }
    lines[i] = b;
}

// A description, with the end of a line where `|` stands.
fn broken(words: &[u8], lines: &mut [u8]) {
    for (i, b) in words.iter().enumerate() {
        put_at(lines, i, *b);
    }
}

// The bytes of an image as hex digits and the end of a line, or what is wrong.
fn put_image(rt: &impl Print, image: &[u8], told: Told) -> io::Result<()> {
    let end = told.end;
    if end > image.len() {
        return Ok(());
    }
    if !told.good {
        return streams::flush(rt, image, end);
    }
    let mut out = [0u8; 65536];
    let at = spelling::put_bytes(&mut out, 0, &image[0..end]);
    let at = text::put_byte(&mut out, at, b'\n');
    streams::flush(rt, &out, at)
}

fn make_words(rt: &impl Print, words: &[u8]) -> io::Result<()> {
    let n = words.len();
    if n > 4096 {
        return Ok(());
    }
    let mut lines = [0u8; 4096];
    let mut out = [0u8; 65536];
    broken(words, &mut lines);
    let told = imaging::put_made(&mut out, &lines[0..n]);
    put_image(rt, &out, told)
}

// A line of the input: its first letter says which of the two it is.
fn answer(rt: &impl Print, line: &[u8]) -> io::Result<()> {
    if line.len() < 6 {
        return Ok(());
    }
    if line[0] == b'c' {
        return check_word(rt, &line[6..]);
    }
    make_words(rt, &line[5..])
}

fn answer_each(rt: &impl Print, input: &[u8]) -> io::Result<()> {
    let mut at = 0;
    // The loop goes from line to line by where each one ends: what a split gives is one line more after the last newline.
    while at < input.len() {
        let end = text::find(input, at, b'\n');
        answer(rt, &input[at..end])?;
        at = end;
        if at < input.len() {
            at += 1;
        }
    }
    Ok(())
}

fn main(rt: HostRuntime) -> io::Result<()> {
    let mut buffer = [0u8; 65536];
    let n = streams::read_full(&rt, &mut buffer)?;
    answer_each(&rt, &buffer[..n])
}
