// The published calls, each made with what a frame gives and answered by a frame; those of Handover payloads are framed_payloads'.
// crates/call_driver/README.md has the table of them.
#![tactic(auto)]

mod adds;
mod attribute;
mod calls;
mod given;
mod members;
mod modules;
mod outputs;
mod questions;

pub use calls::{MALFORMED, load, make, suits};
