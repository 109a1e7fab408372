// key=value lines, put into a lent output: a key with numbers, a text, raw bytes, or nothing. No format in particular is here.
#![tactic(auto)]

mod lines;

pub use lines::{absent_line, hex_line, numbers_line, text_line};
