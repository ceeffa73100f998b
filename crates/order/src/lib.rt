// The order of the questions, and which answers changed when question 13 was put directly after 6: the theorems stand in proofs/.
#![tactic(auto)]
