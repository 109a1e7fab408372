// No code: specs/ states demand 2, proofs/ proves it over the definitions that the calls' contracts cite.
#![tactic(auto)]
