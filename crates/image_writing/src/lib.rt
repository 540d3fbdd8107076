// The writer of an image (02, section 1): contents and bodies as two byte buffers.
#![tactic(auto)]

ghost use Rattle.std.specs.Prelude.{◌≡◌, ◌++◌, ◌+◌, ◌≤◌, length};
ghost use Rattle.std.proofs.Math.Seq.{paste};
ghost use Rattle.answers.specs.Says.{answer_says, places_of, after};
ghost use Rattle.image_rules.specs.Image.{image_says};
ghost use Rattle.image_writing.specs.Writing.{write_says};

use answers::Refusal;
use pieces::Verdict;

// The check of the two joined: they are two pieces.
fn joined(contents: &[u8], bodies: &[u8]) -> Result<u64, Refusal>
    ensures { answer_says result ≡ image_says (contents.now ++ bodies.now) }
{
    let first = pieces::feed(pieces::start(), contents);
    let both = pieces::feed(first, bodies);
    let last = pieces::end(both);
    let verdict = last.verdict;
    match verdict {
        Verdict::Good(t) => Ok(t),
        Verdict::Bad(at) => Err(Refusal::BadImage(at)),
        Verdict::Open => Err(Refusal::BadImage(0)),
    }
}

// Copies the bytes of src into dst from place at on.
fn put(src: &[u8], dst: &mut [u8], at: usize)
    requires { at + length src.now ≤ length dst.old }
    ensures { dst.new ≡ paste dst.old at src.now (length src.now) }
{
    for (i, x) in src.iter().enumerate() {
        dst[at + i] = *x;
    }
}

// Writes the image: 11 just where the reader refuses the two joined; 8 if the output is too short. The answer is how many bytes are written.
pub fn write(contents: &[u8], bodies: &[u8], out: &mut [u8]) -> Result<u64, Refusal>
    ensures says { answer_says result ≡ places_of (write_says contents.now bodies.now (length out.old)) }
    ensures holds { out.new ≡ after (write_says contents.now bodies.now (length out.old)) out.old }
{
    joined(contents, bodies)?;
    let n = contents.len();
    let m = bodies.len();
    if out.len() < n {
        return Err(Refusal::Shape);
    }
    if out.len() - n < m {
        return Err(Refusal::Shape);
    }
    put(contents, out, 0);
    put(bodies, out, n);
    Ok((n + m) as u64)
}
