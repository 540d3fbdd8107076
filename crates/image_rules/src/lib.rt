// The coefficient table image (02, section 1), with no machine in it: `specs/` has its fields in reading order and the verdict on it, `proofs/` their laws.
#![tactic(auto)]
