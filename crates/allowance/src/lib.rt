// How far payments, provisions and reserves are from the exact solution carried on unrounded: the theory stands in proofs/.
#![tactic(auto)]
