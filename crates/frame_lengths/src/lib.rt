// How long the report is at most around its sections, and what a refused record gets: the laws stand in proofs/.
#![tactic(auto)]
