// Positional numbers with a radix for each position, with no machine width in them: `specs/` has the definitions and `proofs/` their laws.
#![tactic(auto)]
