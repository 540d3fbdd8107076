// What documents 01 and 02 demand of wide terms, as theorems over the definitions of their calls. No code.
#![tactic(auto)]
