// Text with numbers in it, put into a lent buffer from a place on. Each function answers the place after it. The messages of the programs are made of these: a
// function that puts two or three parts is proved sooner than one that puts ten.
#![tactic(auto)]

// A text, and a number behind it.
pub fn with_number(out: &mut [u8], at: usize, before: &[u8], n: u64) -> usize {
    let at = text::put(out, at, before);
    text::put_number(out, at, n)
}

// A number, and a text behind it.
pub fn number(out: &mut [u8], at: usize, n: u64, after: &[u8]) -> usize {
    let at = text::put_number(out, at, n);
    text::put(out, at, after)
}

// A number between two texts.
pub fn around(out: &mut [u8], at: usize, before: &[u8], n: u64, after: &[u8]) -> usize {
    let at = with_number(out, at, before, n);
    text::put(out, at, after)
}
