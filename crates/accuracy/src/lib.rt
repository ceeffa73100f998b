// Laws about the separation: how near the printed shares and levels are to the totals and to every exact solution. They stand in proofs/.
#![tactic(auto)]
