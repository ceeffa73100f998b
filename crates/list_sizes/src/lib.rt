// How large the entries of an accepted run's list are; the laws stand in proofs/.
#![tactic(auto)]
