// The theorem of what a history's page and its comma-separated values show (proofs/): the entries of each position.
#![tactic(auto)]
