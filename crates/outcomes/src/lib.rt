// No second outcome: each answer is told by what it says, so a contract that is an equation leaves one answer. Theorems over the answers: no code.
#![tactic(auto)]
