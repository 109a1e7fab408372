// Parts of the lent buffer: a map's entries, a command line's text.
ghost use Rattle.std.specs.Prelude.{◌≡◌, true, ◌+◌, ◌≤◌, length};
ghost use Rattle.ultra_format.specs.Members.{size_suits};
ghost use Rattle.ultra_format.specs.Decoding.{decoded};
ghost use Rattle.ultra_questions.specs.Parts.{body_part};

use lent_buffers::Part;
use ultra_layout::{command_line, map, types};

// The part of the attribute of type `kind` in the `size` bytes from `start` on: a map's entries, a command line's text up to its zero.
pub fn of_body(buf: &[u8], start: u32, size: u32, kind: u32) -> Part
    requires size_in_bounds { (start + size ≤ length buf.now) × (start + size ≤ 65536) }
    requires kind_value { size_suits size (decoded buf.now start size kind) ≡ true }
    ensures { result ≡ body_part start (decoded buf.now start size kind) }
{
    if kind == types::MEMORY_MAP {
        return Part {
            start: start + map::ENTRIES as u32,
            length: size - map::ENTRIES as u32,
        };
    }
    if kind == types::COMMAND_LINE {
        let length = byte_layout::text_length(
            buf,
            start as usize + command_line::TEXT,
            size as usize - command_line::TEXT,
        );
        return Part {
            start: start + command_line::TEXT as u32,
            length: length as u32,
        };
    }
    lent_buffers::no_part()
}
