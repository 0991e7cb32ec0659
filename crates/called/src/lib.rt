// What is true of calls, from their contracts as the toolchain gives them to a caller: demand 3 of a series of
// calls of `remove_from_design` and `remove_from_graph`, demand 2 of what they leave in the room, whose times
// `times` and `node_record` then tell, when `late_or_not` answers that a path is late, that a removal's scratch
// makes no difference but for 31, what a removal answers in any room from what `size_from_design` or
// `size_from_graph` told, and which path and edge are at fault where one of these four, `test_list` or `test_deck`
// refuses 22 to 24. There is no code here: specs/ says what a call is, and proofs/ has the theorems.
#![tactic(auto)]
