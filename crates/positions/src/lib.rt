// What the counts of a word count, by its positions: inversions, crossings, repeats, multiplicities and the stabilizer. Theorems over the definitions: no code.
#![tactic(auto)]
