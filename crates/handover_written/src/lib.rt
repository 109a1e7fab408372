// What writing a Handover payload promises: statements (specs/) and proofs (proofs/), no code.
#![tactic(auto)]
