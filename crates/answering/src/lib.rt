// What routines that ask questions one after another answer and leave. The definition stands in specs/, its laws in proofs/.
#![tactic(auto)]
