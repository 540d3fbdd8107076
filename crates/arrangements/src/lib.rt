// The mathematics of permutations, with no machine width in it: `specs/` has the definitions and `proofs/` their laws. No code.
#![tactic(auto)]
