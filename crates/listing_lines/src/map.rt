// The memory map: type 3.
ghost use Rattle.std.specs.Prelude.{◌≡◌, ◌+◌, ◌-◌, ◌*◌, ◌/◌, ◌≤◌, length};
ghost use Rattle.text_output.specs.Output.{puts};
ghost use Rattle.key_value_text.specs.Lines.{line_bytes};
ghost use Rattle.key_value_text.specs.LineOutput.{put_lines};
ghost use Rattle.ultra_format.specs.Decoding.{entry_at, entries_at};
ghost use Rattle.ultra_layout.specs.Sizes.{entry_size};
ghost use Rattle.listing_format.specs.Listing.{range_line, range_lines, map_lines};

use crate::numbers::{one, three};
use ultra_layout::{entry, map};

fn range(out: &mut [u8], to: u32, buf: &[u8], at: usize) -> u32
    requires { at + entry_size ≤ length buf.now }
    ensures { (out.new, result) ≡ puts (out.old, to) (line_bytes (range_line (entry_at buf.now at))) }
{
    let address = entry::address(buf, at);
    let size = entry::size(buf, at);
    let kind = entry::kind(buf, at);
    three(out, to, b"range", address, size, kind)
}

// The `n` entries from `at` on, few enough that where each starts fits.
#[tactic(auto, using(listing_format::proofs::LineLaws::range_next, listing_format::proofs::LineLaws::range_end))]
fn ranges(out: &mut [u8], to: u32, buf: &[u8], at: usize, n: usize) -> u32
    requires { (at + entry_size * n ≤ length buf.now) × (n ≤ 4294967295) }
    ensures { (out.new, result) ≡ put_lines (out.old, to) (range_lines (entries_at buf.now at n)) }
{
    let mut end = to;
    for i in 0..n {
        end = range(out, end, buf, at + entry::WIDTH * i);
    }
    end
}

#[tactic(auto, using(listing_format::proofs::LineLaws::length_entries))]
pub fn write(out: &mut [u8], to: u32, buf: &[u8], at: usize, size: u32) -> u32
    requires { (at + size ≤ length buf.now) × (8 ≤ size) }
    ensures { (out.new, result) ≡ put_lines (out.old, to) (map_lines (entries_at buf.now (at + 8) ((size - 8) / entry_size))) }
{
    let n = (size as usize - map::ENTRIES) / entry::WIDTH;
    let end = one(out, to, b"map", n as u64);
    ranges(out, end, buf, at + map::ENTRIES, n)
}
