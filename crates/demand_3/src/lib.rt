// No code: demand 3 of the order, stated in specs/ and proved in proofs/.
#![tactic(auto)]
