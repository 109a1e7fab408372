// The rules on a memory map's entries, 13, 15 and 16: entries in a buffer here, numbers given in `numbers`, both by `one_pass`.
// "within a map, all entries are tried for 13, then 15, then 16"
#![tactic(auto)]

pub mod numbers;
mod one_pass;

ghost use Rattle.std.specs.Prelude.{◌≡◌, ◌+◌, ◌*◌, ◌≤◌, length};
ghost use Rattle.refusals.specs.Answers.{checked};
ghost use Rattle.ultra_format.specs.Contexts.{Body};
ghost use Rattle.ultra_format.specs.Members.{body_check};
ghost use Rattle.ultra_format.specs.Decoding.{entries_at};

use ultra_layout::entry;

// The first of 13, 15 and 16 that the `count` entries from `at` on break.
pub fn entries_check(bytes: &[u8], at: usize, count: usize) -> Result<(), u16>
    requires { at + 24 * count ≤ length bytes.now }
    ensures { result ≡ checked (body_check (8 + 24 * count) (Body.memory_map (entries_at bytes.now at count))) }
{
    one_pass::check(&bytes[at..at + entry::WIDTH * count])
}
