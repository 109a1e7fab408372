// Statements and their proofs alone: what reading and steps accept and refuse, and what reading does not look at. No code.
#![tactic(auto)]
