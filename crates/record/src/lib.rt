// One record for one set of figures: the theorems stand in proofs/.
#![tactic(auto)]
