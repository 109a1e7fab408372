// The command line: type 5.
ghost use Rattle.std.specs.Prelude.{◌≡◌, ◌≤◌, ◌<◌, length};
ghost use Rattle.byte_layout.specs.Stored.{over};
ghost use Rattle.ultra_format.specs.Additions.{Addition, size_given, bytes_given};

use ultra_layout::{command_line, types};

// "A text of k bytes as command line is written in 8 + (k + 1 rounded up to a multiple of 8) bytes."
#[tactic(auto, using(crate::proofs::Line::line_size_law))]
pub fn size(text: &[u8]) -> usize
    ensures { result ≡ size_given (Addition.add_command_line text.now) }
{
    command_line::TEXT + (text.len() + 1 + 7) / 8 * 8
}

#[tactic(auto, using(crate::proofs::Line::line_size_law))]
pub fn write(part: &mut [u8], text: &[u8])
    requires text_in_bounds { size_given (Addition.add_command_line text.now) ≤ length part.old }
    requires text_bound { size_given (Addition.add_command_line text.now) < 4294967296 }
    ensures { part.new ≡ over (bytes_given (Addition.add_command_line text.now)) part.old }
{
    let whole = size(text);
    crate::header(part, types::COMMAND_LINE, whole as u32);
    byte_layout::store_padded(part, command_line::TEXT, whole - command_line::TEXT, text);
}
