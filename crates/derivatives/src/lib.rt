// Derivatives of tables of whole numbers (document 02, section 10), with no machine width in it: `specs/` has the definitions and `proofs/` their laws. No code.
#![tactic(auto)]
