#![tactic(auto)]

use std::io;

// A sample of the calls of the comparison with the Rust (compare/README.md), replayed with no Rust at hand: stdin has the requests, stdout
// the answers. An answer is the Rust's; a refusal, and an answer where the Rust has none (docs/DIFFERENCES.md D17, D18, D20), is that of
// tools/model.py. Both files are made anew, where the whole comparison leaves nothing unexplained, by
//
//   compare/run PATH-OF-THE-RUST --vectors crates/vectors
fn main(rt: HostRuntime) -> io::Result<()> {
    asking::run(&rt)
}
