// What the calls on terms answer, over the number of bits of an index (document 02, section 9): 64 for the narrow index, 128 for the wide one. No code.
#![tactic(auto)]
