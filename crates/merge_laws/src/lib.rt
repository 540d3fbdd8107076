// The laws of merging (document 02, §14): the order in which indices are merged, two by two. Theorems over the definitions that the contracts cite: no code.
#![tactic(auto)]
