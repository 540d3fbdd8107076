// What was promised, as theorems over the definitions that the contracts cite: no code. docs/PROMISES.md names each demand's theorems.
#![tactic(auto)]
