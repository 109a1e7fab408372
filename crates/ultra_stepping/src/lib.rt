// The head, an attribute's bounds, and going from attribute to attribute: by steps that check, and within bounds that are known.
#![tactic(auto)]

pub mod bounds;
mod cursor;
pub mod head;
mod walk;

pub use cursor::{Cursor, Header};
pub use walk::{first_of_type, start_of};
