// The check of an image that comes in pieces (02, section 13). The state holds the first 772 bytes, how many have been seen, and the verdict.
#![tactic(auto)]

ghost use Rattle.std.specs.Prelude.{◌≡◌, length};
ghost use Rattle.std.proofs.Math.Seq.{paste};
ghost use Rattle.image_rules.specs.Image.{check_says};
ghost use Rattle.pieces.specs.Pieces.{room as room_of, more as more_of, told, ended, start as start_of, fed, closed};

// Open while more may come; at the end the number of tables, or the offset of the first wrong field.
#[derive(Clone, Copy)]
pub enum Verdict {
    Open,
    Good(u64),
    Bad(u64),
}

// Anyone may make one up.
#[derive(Clone, Copy)]
pub struct Pieces {
    pub bytes: [u8; 772],
    pub seen: u64,
    pub verdict: Verdict,
}

// How many of n bytes still fit into the first 772, of which `at` are there.
fn room(at: u64, n: u64) -> u64
    ensures { result ≡ room_of at n }
{
    if 772 <= at {
        return 0;
    }
    if 772 - at < n { 772 - at } else { n }
}

// How many bytes have been seen after n more, and 65,537 for every number above 65,536.
fn more(seen: u64, n: u64) -> u64
    ensures { result ≡ more_of seen n }
{
    if 65536 < seen {
        return 65537;
    }
    if 65536 - seen < n {
        return 65537;
    }
    seen + n
}

// The first 772 bytes with those of the piece from place `at` on.
fn keep(bytes: [u8; 772], at: u64, piece: &[u8]) -> [u8; 772]
    ensures { result ≡ paste bytes at piece.now (room_of at (length piece.now)) }
{
    let n = room(at, piece.len() as u64);
    let mut kept = bytes;
    for i in 0..n {
        kept[(at + i) as usize] = piece[i as usize];
    }
    kept
}

// The verdict on what has come, while more may come.
fn so_far(bytes: [u8; 772], seen: u64) -> Verdict
    ensures { result ≡ told (check_says bytes seen) seen }
{
    match image_check::check_within(&bytes, seen) {
        Ok(_) => Verdict::Open,
        Err(e) => {
            let at = answers::place(e);
            if at < seen {
                return Verdict::Bad(at);
            }
            Verdict::Open
        }
    }
}

// The verdict at the end.
fn at_last(bytes: [u8; 772], seen: u64) -> Verdict
    ensures { result ≡ ended (check_says bytes seen) }
{
    match image_check::check_within(&bytes, seen) {
        Ok(t) => Verdict::Good(t),
        Err(e) => Verdict::Bad(answers::place(e)),
    }
}

// The state before the first piece.
pub fn start() -> Pieces
    ensures { result ≡ start_of }
{
    Pieces {
        bytes: [0u8; 772],
        seen: 0,
        verdict: Verdict::Open,
    }
}

// The state after one more piece. Where the verdict is told, nothing changes.
pub fn feed(p: Pieces, piece: &[u8]) -> Pieces
    ensures { result ≡ fed p piece.now }
{
    let verdict = p.verdict;
    let before = p.bytes;
    let at = p.seen;
    match verdict {
        Verdict::Open => {
            let bytes = keep(before, at, piece);
            let seen = more(at, piece.len() as u64);
            let verdict = so_far(bytes, seen);
            Pieces {
                bytes,
                seen,
                verdict,
            }
        }
        Verdict::Good(_) => p,
        Verdict::Bad(_) => p,
    }
}

// The state after the end of the image. Where the verdict is told, nothing changes.
pub fn end(p: Pieces) -> Pieces
    ensures { result ≡ closed p }
{
    let verdict = p.verdict;
    let bytes = p.bytes;
    let seen = p.seen;
    match verdict {
        Verdict::Open => {
            let verdict = at_last(bytes, seen);
            Pieces {
                bytes,
                seen,
                verdict,
            }
        }
        Verdict::Good(_) => p,
        Verdict::Bad(_) => p,
    }
}
