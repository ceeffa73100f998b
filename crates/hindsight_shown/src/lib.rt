// The theorems of what the page and the comma-separated values of a hindsight run show (proofs/): the entries of each step, the sums, and the best setting.
#![tactic(auto)]
