// Text into a lent output: bytes as they are, decimal numbers, texts with escapes, raw bytes in hexadecimal. Each function puts its bytes
// from the place `to` on and answers the place after them; what is past the output's end is counted and not put.
#![tactic(auto)]

mod output;
mod spelling;

pub use output::{put, put_all};
pub use spelling::{escaped, hexadecimal, joined};
