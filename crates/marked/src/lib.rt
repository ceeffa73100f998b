// The marked triangles and edges of documents 01 and 02, with worked calls for indices: one theorem, in proofs/.
#![tactic(auto)]
