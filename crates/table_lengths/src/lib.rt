// How long a table of the report is at most: the laws stand in proofs/.
#![tactic(auto)]
