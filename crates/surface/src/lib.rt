// The mass of a surface at two readings (02, section 3), with no machine in it: `specs/` has the sequence of rounded operations and the surface of an image, `proofs/` their laws.
#![tactic(auto)]
