// The load address, as the argument gives it.

use std::env::{Env, FillError};

// The number with one more digit; none where the byte is no digit or it passes 64 bits.
fn with_digit(number: u64, byte: u8) -> Option<u64> {
    let digit = char::from(byte).to_digit(10)?;
    number.checked_mul(10)?.checked_add(u64::from(digit))
}

// The number that digits are; none where there is no digit. Unlike `parse`, no sign is taken.
fn number(digits: &[u8]) -> Option<u64> {
    if digits.is_empty() {
        return None;
    }
    digits
        .iter()
        .try_fold(0, |number, digit| with_digit(number, *digit))
}

// There is one argument. A longer one than a number of 64 bits can have is read as none.
pub fn load_address(rt: &impl Env) -> Option<u64> {
    let mut space = [0u8; 20];
    let length = rt.arg(1, &mut space).ok()?;
    match rt.arg(2, &mut [0u8; 0]) {
        Err(FillError::NotPresent) => number(&space[..length]),
        _ => None,
    }
}
