// Laws that more than one crate cites. They stand in proofs/.
#![tactic(auto)]
