// The theorems of a history's positions (proofs/): each is what questions 7 to 10 and the separation give of the record cut out for it, and one that is accepted meets the
// third demand.
#![tactic(auto)]
