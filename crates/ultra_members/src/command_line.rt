ghost use Rattle.std.specs.Prelude.{◌≡◌, ◌+◌, ◌-◌, ◌≤◌, length};
ghost use Rattle.refusals.specs.Answers.{checked};
ghost use Rattle.byte_layout.specs.Stored.{text_at};
ghost use Rattle.ultra_format.specs.Contexts.{Body};
ghost use Rattle.ultra_format.specs.Members.{body_check};

use ultra_layout::command_line;

// The first of 12 to 16 that the command line in the `size` bytes from `at` on breaks.
pub fn check(bytes: &[u8], at: usize, size: u32) -> Result<(), u16>
    requires { at + size ≤ length bytes.now }
    ensures { result ≡ checked (body_check size (Body.command_line (text_at bytes.now (at + 8) (size - 8)))) }
{
    if size < command_line::LEAST_SIZE {
        return Err(refusals::FORM);
    }
    let length = size as usize - command_line::TEXT;
    let text = ultra_rules::texts::ascii(bytes, at + command_line::TEXT, length);
    ultra_rules::first_broken(true, true, text, true, true)
}
