// Statements and their proofs alone: what an edit of a held context leaves, and the laws that it rests on. No code.
#![tactic(auto)]
