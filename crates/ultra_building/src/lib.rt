// Beginning a context, and adding to it.
#![tactic(auto)]

mod adds;
mod late_members;

ghost use Rattle.std.specs.Prelude.{◌≡◌};
ghost use Rattle.ultra_building.specs.Building.{begun};

pub use adds::{add_kernel, add_module, add_platform};
use refusals::Refusal;
pub use ultra_adding::{add_command_line, add_framebuffer, add_map, members};

// Begins a context without attributes, whatever the buffer holds.
pub fn begin(buf: &mut [u8]) -> Result<u32, Refusal>
    ensures { (result, buf.new) ≡ begun buf.old }
{
    if buf.len() < 8 {
        return Err(Refusal::new(refusals::SHORT, 0));
    }
    words::store_u64(buf, 0, 1);
    Ok(8)
}
