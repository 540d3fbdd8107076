// What the mass of one frame promises (02, section 3), as theorems over its definitions: `proofs/` has them.
#![tactic(auto)]
