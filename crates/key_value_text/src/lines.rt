// Whole lines: the key, `=`, the value and the newline.
ghost use Rattle.std.specs.Prelude.{◌≡◌, ◌+◌, ◌≤◌, length};
ghost use Rattle.byte_layout.specs.Stored.{bytes_at, text_at};
ghost use Rattle.text_output.specs.Output.{puts};
ghost use Rattle.key_value_text.specs.Lines.{Value, line, key_bytes, line_bytes};

use text_output::{put, put_all};

// The key and `=`.
#[tactic(auto, using(text_output::proofs::Puts::byte_after))]
fn put_key(out: &mut [u8], to: u32, key: &[u8]) -> u32
    ensures { (out.new, result) ≡ puts (out.old, to) (key_bytes key.now) }
{
    let at = put_all(out, to, key);
    put(out, at, b'=')
}

// Numbers with a separator between them.
#[tactic(auto, using(crate::proofs::LinePuts::line_put), unfolding(crate::specs::Lines::value_bytes))]
pub fn numbers_line(out: &mut [u8], to: u32, key: &[u8], separator: u8, numbers: &[u64]) -> u32
    ensures { (out.new, result) ≡ puts (out.old, to) (line_bytes (line key.now (Value.numbers separator numbers.now))) }
{
    let at = put_key(out, to, key);
    let end = text_output::joined(out, at, separator, numbers);
    put(out, end, b'\n')
}

// The text in the `width` bytes from `start` on.
#[tactic(auto, using(crate::proofs::LinePuts::line_put, byte_layout::proofs::Copies::text_bytes), unfolding(crate::specs::Lines::value_bytes))]
pub fn text_line(
    out: &mut [u8],
    to: u32,
    key: &[u8],
    bytes: &[u8],
    start: usize,
    width: usize,
) -> u32
    requires { start + width ≤ length bytes.now }
    ensures { (out.new, result) ≡ puts (out.old, to) (line_bytes (line key.now (Value.text (text_at bytes.now start width)))) }
{
    let at = put_key(out, to, key);
    let n = byte_layout::text_length(bytes, start, width);
    let end = text_output::escaped(out, at, bytes, start, n);
    put(out, end, b'\n')
}

// The `n` bytes from `start` on.
#[tactic(auto, using(crate::proofs::LinePuts::line_put), unfolding(crate::specs::Lines::value_bytes))]
pub fn hex_line(out: &mut [u8], to: u32, key: &[u8], bytes: &[u8], start: usize, n: usize) -> u32
    requires { start + n ≤ length bytes.now }
    ensures { (out.new, result) ≡ puts (out.old, to) (line_bytes (line key.now (Value.hex (bytes_at bytes.now start n)))) }
{
    let at = put_key(out, to, key);
    let end = text_output::hexadecimal(out, at, bytes, start, n);
    put(out, end, b'\n')
}

#[tactic(auto, using(crate::proofs::LinePuts::line_put, text_output::proofs::Puts::puts_one), unfolding(crate::specs::Lines::value_bytes))]
pub fn absent_line(out: &mut [u8], to: u32, key: &[u8]) -> u32
    ensures { (out.new, result) ≡ puts (out.old, to) (line_bytes (line key.now Value.absent)) }
{
    let at = put_key(out, to, key);
    let end = put(out, at, b'-');
    put(out, end, b'\n')
}
