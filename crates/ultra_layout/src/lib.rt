// Document 01, "The head and the attributes", for code: the number of each type, the sizes and the offsets.
// In the module of a type a constant named after a member is its offset in the attribute, and a function reads the member of the
// attribute that starts at `at`. `LEAST_SIZE` is the least size that suits the type; a kernel, a module and a framebuffer are written with
// it, a platform with `FULL_SIZE`.
#![tactic(auto)]

pub mod attribute;
pub mod command_line;
pub mod entry;
pub mod framebuffer;
pub mod head;
pub mod kernel;
pub mod map;
pub mod module;
pub mod platform;
pub mod types;
