ghost use Rattle.std.specs.Prelude.{◌≡◌, ◌+◌, ◌-◌, ◌/◌, ◌≤◌, length};
ghost use Rattle.refusals.specs.Answers.{checked};
ghost use Rattle.ultra_format.specs.Contexts.{Body};
ghost use Rattle.ultra_format.specs.Members.{body_check};
ghost use Rattle.ultra_format.specs.Decoding.{entries_at};

use ultra_layout::{entry, map};

// The first of 12 to 16 that the memory map in the `size` bytes from `at` on breaks.
pub fn check(bytes: &[u8], at: usize, size: u32) -> Result<(), u16>
    requires { (at + size ≤ length bytes.now) × (8 ≤ size) }
    ensures { result ≡ checked (body_check size (Body.memory_map (entries_at bytes.now (at + 8) ((size - 8) / 24)))) }
{
    let length = size as usize - map::ENTRIES;
    if length % entry::WIDTH != 0 {
        return Err(refusals::FORM);
    }
    ultra_map::entries_check(bytes, at + map::ENTRIES, length / entry::WIDTH)
}
