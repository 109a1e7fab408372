// A module: type 4.
ghost use Rattle.std.specs.Prelude.{◌≡◌, ◌+◌, ◌≤◌, length};
ghost use Rattle.key_value_text.specs.LineOutput.{put_lines};
ghost use Rattle.ultra_format.specs.Decoding.{module_at};
ghost use Rattle.ultra_layout.specs.Sizes.{module_size};
ghost use Rattle.listing_format.specs.Listing.{module_lines};

use crate::numbers::three;
use ultra_layout::module;

pub fn write(out: &mut [u8], to: u32, buf: &[u8], at: usize) -> u32
    requires { at + module_size ≤ length buf.now }
    ensures { (out.new, result) ≡ put_lines (out.old, to) (module_lines (module_at buf.now at)) }
{
    let kind = module::kind(buf, at) as u64;
    let address = module::address(buf, at);
    let size = module::size(buf, at);
    let end = three(out, to, b"module", kind, address, size);
    key_value_text::text_line(
        out,
        end,
        b"modname",
        buf,
        at + module::NAME,
        module::NAME_WIDTH,
    )
}
