// The command line.
ghost use Rattle.std.specs.Prelude.{◌≡◌};
ghost use Rattle.ultra_questions.specs.CommandLineQuestion.{command_line_part, LineHandedBack};

use lent_buffers::Part;
use refusals::Refusal;
use ultra_layout::{attribute, types};

// Where the text is, and how long it is up to its zero; both 0 where there is none or the buffer is refused.
pub fn command_line_part(buf: &[u8]) -> Part
    ensures { result ≡ command_line_part buf.now }
{
    let answer = ultra_reading::used_length(buf, 2);
    let Ok(_) = answer else {
        return lent_buffers::no_part();
    };
    let start = ultra_locating::first_of_type(buf, types::COMMAND_LINE);
    if start == 0 {
        return lent_buffers::no_part();
    }
    let size = words::load_u32(buf, start as usize + attribute::SIZE);
    crate::part::of_body(buf, start, size, types::COMMAND_LINE)
}

// The context's own line, up to its zero, where the context is accepted and has one, even an empty one; otherwise all of the board's text:
// "a part of one of the two texts lent and not a copy".
pub fn command_line<'a>(buf: &'a [u8], board: &'a [u8]) -> &'a [u8]
    ensures { LineHandedBack result buf.entry board.entry }
{
    let part = command_line_part(buf);
    let line = lent_buffers::slice(buf, part);
    // A line never starts at 0, an empty one neither.
    if part.start == 0 { board } else { line }
}
