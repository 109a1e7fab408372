// Contexts by hand, for the programs that run cases.
#![tactic(auto)]

pub mod build;
