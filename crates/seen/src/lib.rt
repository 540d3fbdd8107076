// The set of the symbols seen so far, as the digits of a number: laws alone (proofs/Seen).
#![tactic(auto)]
