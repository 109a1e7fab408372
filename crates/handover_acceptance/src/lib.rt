// No code: what reading accepts and which refusal it gives, stated in specs/ and proved in proofs/.
#![tactic(auto)]
