// What is true of the definitions of `timing` alone. There is no code here: the theorems are in
// proofs/, and docs/THEOREMS.md lists them.
#![tactic(auto)]
