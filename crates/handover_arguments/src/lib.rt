// What is given to write a Handover payload: its parts looked up, measured and judged. Crate handover_writing writes it.
#![tactic(auto)]

mod judge;
mod measure;
mod parts;

pub use judge::check;
pub use measure::{agent_width, size, with_meta, with_name};
pub use parts::{length_at, start_at};
