// What the programs that run cases share: records to add, and lines for answers.
#![tactic(auto)]

pub mod given;
pub mod members;
pub mod show;
