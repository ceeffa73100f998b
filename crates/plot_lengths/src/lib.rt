// How long a plot is at most, and plots worked out by hand: the laws stand in proofs/.
#![tactic(auto)]
