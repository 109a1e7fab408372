// Texts given, as their bytes; the text that an array gives is all of it but its trailing zeros.
ghost use Rattle.std.specs.Prelude.{◌≡◌, ◌≤◌, length, take};
ghost use Rattle.ultra_format.specs.Members.{every, ascii, nonzero, ascii_text, path_text};
ghost use Rattle.ultra_format.specs.Records.{trimmed};

use ultra_layout::kernel;

// Whether every byte is one of 1 to 127.
pub fn all_ascii(bytes: &[u8]) -> bool
    ensures { result ≡ every ascii bytes.now }
{
    bytes.iter().all(|byte| matches!(*byte, 1..=127))
}

// Whether no byte is zero.
fn all_nonzero(bytes: &[u8]) -> bool
    ensures { result ≡ every nonzero bytes.now }
{
    bytes.iter().all(|byte| *byte != 0)
}

// Whether the text has bytes 1 to 127 only and leaves a place for its closing zero in a field of `width` bytes.
#[tactic(auto, unfolding(ultra_format::specs::Members::ascii_text))]
pub fn ascii(text: &[u8], width: usize) -> bool
    ensures { result ≡ ascii_text width text.now }
{
    text.len() < width && all_ascii(text)
}

// Whether the text is a path that leaves a place for its closing zero.
#[tactic(auto, unfolding(ultra_format::specs::Members::path_text))]
pub fn path(text: &[u8]) -> bool
    ensures { result ≡ path_text 256 text.now }
{
    text.len() < kernel::PATH_WIDTH && text.starts_with(b"/") && all_nonzero(text)
}

// How long the text is that an array gives.
pub fn trimmed_length(bytes: &[u8]) -> usize
    ensures { (result ≤ length bytes.now) × (take result bytes.now ≡ trimmed bytes.now) }
{
    let zeros = bytes.iter().rev().take_while(|byte| **byte == 0).count();
    bytes.len() - zeros
}
