// The wide index, and what carries it (document 02, section 9): a shifted alphabet up to 128. `specs/Rules` has what every call on it answers.
#![tactic(auto)]

use answers::Sign;
use words::Family;

// A wide index holds its family and the set of its shifted symbols, 0 to 63 as the bits of the low half and 64 to 127 as those of the high one. It names no
// alphabet: every two halves are an index, and no call refuses one.
#[derive(Clone, Copy)]
pub struct Wide {
    pub family: Family,
    pub low: u64,
    pub high: u64,
}

// A sign and a wide index.
#[derive(Clone, Copy)]
pub struct WideTerm {
    pub sign: Sign,
    pub index: Wide,
}

// A sign, the symbol that was deleted, and the index of what is left.
#[derive(Clone, Copy)]
pub struct WideGap {
    pub sign: Sign,
    pub symbol: u64,
    pub index: Wide,
}
