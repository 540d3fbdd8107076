// No second outcome across the C boundary: what comes back and what the caller's places hold tell the answer. Theorems over the answers: no code.
#![tactic(auto)]
