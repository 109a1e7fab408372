// The calls toward C: numbers and byte slices in, one u64 back. Each is a call of the crates that this one depends on, its answer made one
// number.
#![tactic(auto)]

mod building;
mod questions;
mod reading;
