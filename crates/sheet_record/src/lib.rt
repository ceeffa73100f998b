// The text of a record read again: the theorems stand in proofs/.
#![tactic(auto)]
