// Frames: numbers and byte strings in a stream. crates/call_driver/README.md describes them; no call is known here. `frame` reads what a
// frame gives, `reply` puts one together, `answers` the frame of an answer.
#![tactic(auto)]

pub mod answers;
pub mod frame;
pub mod reply;
