// Rules on texts: refusal 14.
ghost use Rattle.std.specs.Prelude.{◌≡◌, ◌+◌, ◌≤◌, length};
ghost use Rattle.byte_layout.specs.Stored.{text_at};
ghost use Rattle.ultra_format.specs.Members.{ascii_text, path_text};

// Whether the text in the `width` bytes from `at` on closes there, with bytes 1 to 127 before its zero.
#[tactic(auto, using(crate::proofs::Letters::letters))]
pub fn ascii(bytes: &[u8], at: usize, width: usize) -> bool
    requires { at + width ≤ length bytes.now }
    ensures { result ≡ ascii_text width (text_at bytes.now at width) }
{
    for byte in &bytes[at..at + width] {
        match *byte {
            0 => return true,
            1..=127 => {}
            _ => return false,
        }
    }
    false
}

// Whether the text in the `width` bytes from `at` on closes there and begins with `/`.
#[tactic(auto, using(crate::proofs::Letters::path_stop, crate::proofs::Letters::path_rest))]
pub fn path(bytes: &[u8], at: usize, width: usize) -> bool
    requires { (at + width ≤ length bytes.now) × (1 ≤ width) }
    ensures { result ≡ path_text width (text_at bytes.now at width) }
{
    bytes[at] == b'/' && byte_layout::text_length(bytes, at, width) < width
}
