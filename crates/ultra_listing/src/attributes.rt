// The attributes in context order.
ghost use Rattle.std.specs.Prelude.{◌≡◌, true, ◌+◌, ◌≤◌, length};
ghost use Rattle.key_value_text.specs.LineOutput.{put_lines};
ghost use Rattle.ultra_format.specs.Members.{size_suits};
ghost use Rattle.ultra_format.specs.Decoding.{decoded, stored_count, attributes_from};
ghost use Rattle.ultra_locating.specs.Passing.{Accepts};
ghost use Rattle.listing_format.specs.Listing.{body_lines, attributes_lines};

use ultra_layout::{command_line, head, types};

// The attribute of type `kind` in the `size` bytes from `at` on.
#[tactic(auto, using(ultra_format::proofs::Sizes::platform_least, ultra_format::proofs::Sizes::kernel_least, ultra_format::proofs::Sizes::module_least, ultra_format::proofs::Sizes::framebuffer_least, listing_format::proofs::LineLaws::decoded_other), unfolding(ultra_format::specs::Decoding::decoded, listing_format::specs::Listing::body_lines))]
fn attribute(out: &mut [u8], to: u32, buf: &[u8], at: usize, size: u32, kind: u32) -> u32
    requires size_in_bounds { (at + size ≤ length buf.now) × (8 ≤ size) }
    requires kind_value { size_suits size (decoded buf.now at size kind) ≡ true }
    ensures { (out.new, result) ≡ put_lines (out.old, to) (body_lines size (decoded buf.now at size kind)) }
{
    match kind {
        types::PLATFORM => listing_platform::write(out, to, buf, at, size),
        types::KERNEL => listing_lines::kernel::write(out, to, buf, at),
        types::MEMORY_MAP => listing_lines::map::write(out, to, buf, at, size),
        types::MODULE => listing_lines::module::write(out, to, buf, at),
        types::COMMAND_LINE => key_value_text::text_line(
            out,
            to,
            b"cmdline",
            buf,
            at + command_line::TEXT,
            size as usize - command_line::TEXT,
        ),
        types::FRAMEBUFFER => listing_lines::framebuffer::write(out, to, buf, at),
        _ => listing_lines::numbers::two(out, to, b"other", b',', kind as u64, size as u64),
    }
}

// Every attribute of an accepted context.
pub fn all(out: &mut [u8], to: u32, buf: &[u8]) -> u32
    requires { Accepts buf.now }
    ensures { (out.new, result) ≡ put_lines (out.old, to) (attributes_lines (attributes_from buf.now 0 (stored_count buf.now))) }
{
    let count = head::count(buf);
    let mut end = to;
    let mut at = head::WIDTH;
    for _ in 0..count {
        let kind = ultra_layout::attribute::kind(buf, at);
        let size = ultra_layout::attribute::size(buf, at);
        end = attribute(out, end, buf, at, size, kind);
        at += size as usize;
    }
    end
}
