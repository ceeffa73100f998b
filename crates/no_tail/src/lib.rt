// A record with nothing still to be paid after the last year gets document 01's answer, and its list followed by zeros: the theorem stands in proofs/NoTail.antt.
#![tactic(auto)]
