// The four questions that a lent context answers: document 01, "Questions". "Each reads first and passes its refusal on, except the
// command line, which has none." The one for the map is crate ultra_map_question's.
#![tactic(auto)]

mod attributes;
mod line;
mod module;
mod part;

pub use attributes::{AttributeAnswer, attribute, attribute_part, attribute_start};
pub use line::{command_line, command_line_part};
pub use module::module_holding;
pub use ultra_map_question::{copy_map, copy_map_bytes};
