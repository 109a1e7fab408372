// The rules on one stored attribute's size and members: refusals 12 to 16, by type.
#![tactic(auto)]

mod command_line;
mod framebuffer;
mod kernel;
mod map;
mod module;
mod platform;

ghost use Rattle.std.specs.Prelude.{◌≡◌, ◌+◌, ◌≤◌, length};
ghost use Rattle.refusals.specs.Answers.{checked};
ghost use Rattle.ultra_format.specs.Members.{body_check};
ghost use Rattle.ultra_format.specs.Decoding.{decoded};

use ultra_layout::types;

// The first of 12 to 16 that the attribute of type `kind` in the `size` bytes from `at` on breaks.
pub fn body_check(bytes: &[u8], at: usize, size: u32, kind: u32) -> Result<(), u16>
    requires { (at + size ≤ length bytes.now) × (8 ≤ size) }
    ensures { result ≡ checked (body_check size (decoded bytes.now at size kind)) }
{
    match kind {
        types::PLATFORM => platform::check(bytes, at, size),
        types::KERNEL => kernel::check(bytes, at, size),
        types::MEMORY_MAP => map::check(bytes, at, size),
        types::MODULE => module::check(bytes, at, size),
        types::COMMAND_LINE => command_line::check(bytes, at, size),
        types::FRAMEBUFFER => framebuffer::check(bytes, at, size),
        _ => Ok(()),
    }
}
