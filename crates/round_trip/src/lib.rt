// What is true of a packed form's reader and writer together. There is no code here: the theorems are
// in proofs/, and docs/THEOREMS.md lists them.
#![tactic(auto)]
