// A frame into a lent output, part by part: each function puts its bytes from the place `to` on and answers the place after them.
use crate::frame::{HEAD, REST};
use text_output::put_all;

fn word(out: &mut [u8], to: u32, number: u32) -> u32 {
    put_all(out, to, &number.to_le_bytes())
}

fn number(out: &mut [u8], to: u32, number: u64) -> u32 {
    put_all(out, to, &number.to_le_bytes())
}

// The head, which says what `finish` completes: how many bytes follow it.
pub fn head(out: &mut [u8], call: u32, numbers: u32, strings: u32) -> u32 {
    let mut at = word(out, 0, call);
    at = word(out, at, numbers);
    at = word(out, at, strings);
    word(out, at, 0)
}

pub fn numbers(out: &mut [u8], to: u32, numbers: &[u64]) -> u32 {
    let mut at = to;
    for given in numbers {
        at = number(out, at, *given);
    }
    at
}

// A string: its length, and its bytes.
pub fn string(out: &mut [u8], to: u32, bytes: &[u8]) -> u32 {
    let at = word(out, to, (bytes.len() % 4294967296) as u32);
    put_all(out, at, bytes)
}

// Numbers as a string, 8 bytes each.
pub fn numbers_string(out: &mut [u8], to: u32, given: &[u64]) -> u32 {
    let at = word(out, to, (given.len() % 536870912) as u32 * 8);
    numbers(out, at, given)
}

// Completes the head of the frame that ends before `end`: it says how many bytes follow it.
pub fn finish(out: &mut [u8], end: u32) {
    if HEAD as u32 <= end {
        word(out, REST as u32, end - HEAD as u32);
    }
}
