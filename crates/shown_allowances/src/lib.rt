// What the report says is proved, of the figures that it shows: the statements stand in specs/, the theorems in proofs/.
#![tactic(auto)]
