// Statements and their proofs alone: what the questions answer and refuse, by the context that a buffer holds. No code.
#![tactic(auto)]
