// Numbers, texts and raw bytes as they are spelled.
ghost use Rattle.std.specs.Prelude.{◌≡◌, ◌+◌, ◌≤◌, ◌<◌, length};
ghost use Rattle.byte_layout.specs.Stored.{bytes_at};
ghost use Rattle.text_output.specs.Output.{puts};
ghost use Rattle.text_output.specs.Spelling.{decimal, joined, hex_digit, hex_pair, spelled, is_escaped, each};

use crate::output::put;

// A number. It calls itself for the digits before the last, since the leading ones come first. Not by `write!`, which fails where an output
// ends: here what is past the end is counted.
#[tactic(auto, using(crate::proofs::Puts::puts_one, crate::proofs::Puts::byte_after, crate::proofs::Digits::one_digit, crate::proofs::Digits::decimal_more))]
pub fn decimal(out: &mut [u8], to: u32, number: u64) -> u32
    ensures { (out.new, result) ≡ puts (out.old, to) (decimal number) }
{
    if number < 10 {
        return put(out, to, b'0' + number as u8);
    }
    let last = decimal(out, to, number / 10);
    put(out, last, b'0' + (number % 10) as u8)
}

// Numbers with a separator between them.
#[tactic(auto, using(crate::proofs::Puts::each_none, crate::proofs::Puts::each_more, crate::proofs::Puts::byte_before, crate::proofs::Puts::joined_none))]
pub fn joined(out: &mut [u8], to: u32, separator: u8, numbers: &[u64]) -> u32
    ensures { (out.new, result) ≡ puts (out.old, to) (joined separator numbers.now) }
{
    let Some((first, others)) = numbers.split_first() else {
        return to;
    };
    let mut at = decimal(out, to, *first);
    for number in others {
        at = put(out, at, separator);
        at = decimal(out, at, *number);
    }
    at
}

// A digit below 16.
#[tactic(auto, unfolding(crate::specs::Spelling::hex_digit))]
fn hex_digit(digit: u8) -> u8
    requires { digit < 16 }
    ensures { result ≡ hex_digit digit }
{
    if digit < 10 {
        b'0' + digit
    } else {
        b'A' + (digit - 10)
    }
}

#[tactic(auto, unfolding(crate::specs::Output::puts))]
fn hex_pair(out: &mut [u8], to: u32, byte: u8) -> u32
    ensures { (out.new, result) ≡ puts (out.old, to) (hex_pair byte) }
{
    let at = put(out, to, hex_digit(byte / 16));
    put(out, at, hex_digit(byte % 16))
}

#[tactic(auto, unfolding(crate::specs::Spelling::is_escaped))]
fn is_escaped(byte: u8) -> bool
    ensures { result ≡ is_escaped byte }
{
    byte <= 31 || byte == b'%' || 127 <= byte
}

#[tactic(auto, unfolding(crate::specs::Output::puts, crate::specs::Spelling::spelled))]
fn spelled(out: &mut [u8], to: u32, byte: u8) -> u32
    ensures { (out.new, result) ≡ puts (out.old, to) (spelled byte) }
{
    if is_escaped(byte) {
        let at = put(out, to, b'%');
        return hex_pair(out, at, byte);
    }
    put(out, to, byte)
}

// The `n` bytes from `start` on, in hexadecimal.
#[tactic(auto, using(crate::proofs::Puts::each_none, crate::proofs::Puts::each_more))]
pub fn hexadecimal(out: &mut [u8], to: u32, bytes: &[u8], start: usize, n: usize) -> u32
    requires { start + n ≤ length bytes.now }
    ensures { (out.new, result) ≡ puts (out.old, to) (each hex_pair (bytes_at bytes.now start n)) }
{
    let mut at = to;
    for byte in &bytes[start..start + n] {
        at = hex_pair(out, at, *byte);
    }
    at
}

// The same as a text. Its loop stays beside the one above: one function for both would take a closure that writes to `out`, whose contract
// is longer than the loop.
#[tactic(auto, using(crate::proofs::Puts::each_none, crate::proofs::Puts::each_more))]
pub fn escaped(out: &mut [u8], to: u32, bytes: &[u8], start: usize, n: usize) -> u32
    requires { start + n ≤ length bytes.now }
    ensures { (out.new, result) ≡ puts (out.old, to) (each spelled (bytes_at bytes.now start n)) }
{
    let mut at = to;
    for byte in &bytes[start..start + n] {
        at = spelled(out, at, *byte);
    }
    at
}
