// The lines of an attribute of each type but the platform, put into a lent output.
#![tactic(auto)]

pub mod framebuffer;
pub mod kernel;
pub mod map;
pub mod module;
pub mod numbers;
