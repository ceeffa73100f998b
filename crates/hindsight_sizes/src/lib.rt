// How large an entry of a hindsight run's report is at most. The theorem stands in proofs/.
#![tactic(auto)]
