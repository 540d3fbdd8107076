// What the calls on a coefficient table image promise together (02, sections 1 and 13), as theorems over their definitions: `proofs/` has them.
#![tactic(auto)]
