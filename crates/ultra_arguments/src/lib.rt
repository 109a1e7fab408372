// What is given to an add, judged before a buffer is looked at: the first of 12 to 16 that it breaks, by type. The rules are those of
// reading (crates ultra_rules and ultra_map have the tests, ultra_format/specs/Members.antt the definitions).
#![tactic(auto)]

pub mod command_line;
pub mod framebuffer;
pub mod kernel;
pub mod map;
pub mod module;
pub mod platform;
pub mod texts;
