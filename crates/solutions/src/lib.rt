// Refusal 8 as a fact about the triangle (document 02, request 8): laws about the exact solutions of Taylor's equations. They stand in proofs/.
#![tactic(auto)]
