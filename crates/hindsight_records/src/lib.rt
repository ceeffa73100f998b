// The theorems of the steps of a hindsight run: what they are of the records that are kept, and how near their forecasts are. They stand in proofs/.
#![tactic(auto)]
