// No code: demand 3 over Handover payloads, stated in specs/ and proved in proofs/.
#![tactic(auto)]
