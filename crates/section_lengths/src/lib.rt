// How long each section of the report is at most: the laws stand in proofs/.
#![tactic(auto)]
