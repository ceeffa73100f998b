// How long the report's pages are at most: no page is ever cut. The laws stand in proofs/.
#![tactic(auto)]
