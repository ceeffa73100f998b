// What the indices of inflation are (document 02, request 5): laws of every call, accepted or refused, and how low an index can be. They stand in proofs/.
#![tactic(auto)]
