// Text for the programs that run cases: tables of cases to read, and parts of lines to print.
#![tactic(auto)]

pub mod print;
pub mod table;
