// What exporting a context promises: statements (specs/) and proofs (proofs/), no code.
#![tactic(auto)]
