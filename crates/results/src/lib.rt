// Laws about the stages: what they hand on is the result list of the figures, and of that list the third demand holds. They stand in proofs/.
#![tactic(auto)]
