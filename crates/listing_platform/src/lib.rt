// The lines of a platform, type 1, put into a lent output.
#![tactic(auto)]

ghost use Rattle.std.specs.Prelude.{◌≡◌, ◌+◌, ◌≤◌, length};
ghost use Rattle.text_output.specs.Output.{puts};
ghost use Rattle.key_value_text.specs.Lines.{line_bytes};
ghost use Rattle.key_value_text.specs.LineOutput.{put_lines};
ghost use Rattle.ultra_format.specs.Decoding.{member_at, platform_at};
ghost use Rattle.ultra_layout.specs.Sizes.{platform_size};
ghost use Rattle.listing_format.specs.Listing.{member, leading_lines, platform_lines};

use listing_lines::numbers::{one, two};
use ultra_layout::platform;

// A member of eight bytes at `offset` in the attribute.
fn late(out: &mut [u8], to: u32, key: &[u8], buf: &[u8], at: usize, size: u32, offset: usize) -> u32
    requires { (at + size ≤ length buf.now) × (offset ≤ 80) }
    ensures { (out.new, result) ≡ puts (out.old, to) (line_bytes (member key.now (member_at buf.now at size offset 8))) }
{
    if (size as usize) < offset + 8 {
        return key_value_text::absent_line(out, to, key);
    }
    one(out, to, key, words::load_u64(buf, at + offset))
}

// The depth: one byte.
#[tactic(auto, using(listing_format::proofs::LineLaws::byte_number))]
fn depth(out: &mut [u8], to: u32, key: &[u8], buf: &[u8], at: usize, size: u32) -> u32
    requires { at + size ≤ length buf.now }
    ensures { (out.new, result) ≡ puts (out.old, to) (line_bytes (member key.now (member_at buf.now at size 64 1))) }
{
    if (size as usize) < platform::DEPTH + 1 {
        return key_value_text::absent_line(out, to, key);
    }
    one(out, to, key, buf[at + platform::DEPTH] as u64)
}

// The members that are always there.
fn leading(out: &mut [u8], to: u32, buf: &[u8], at: usize) -> u32
    requires { at + platform_size ≤ length buf.now }
    ensures { (out.new, result) ≡ put_lines (out.old, to) (leading_lines (platform_at buf.now at platform_size)) }
{
    let after_kind = one(out, to, b"platform", platform::kind(buf, at) as u64);
    let major = platform::loader_major(buf, at) as u64;
    let minor = platform::loader_minor(buf, at) as u64;
    let after_loader = two(out, after_kind, b"loader", b'.', major, minor);
    let after_name = key_value_text::text_line(
        out,
        after_loader,
        b"name",
        buf,
        at + platform::NAME,
        platform::NAME_WIDTH,
    );
    one(out, after_name, b"rsdp", platform::rsdp(buf, at))
}

pub fn write(out: &mut [u8], to: u32, buf: &[u8], at: usize, size: u32) -> u32
    requires { (at + size ≤ length buf.now) × (platform_size ≤ size) }
    ensures { (out.new, result) ≡ put_lines (out.old, to) (platform_lines (platform_at buf.now at size)) }
{
    let after_rsdp = leading(out, to, buf, at);
    let after_half = late(
        out,
        after_rsdp,
        b"half",
        buf,
        at,
        size,
        platform::HIGHER_HALF_BASE,
    );
    let after_depth = depth(out, after_half, b"depth", buf, at, size);
    let after_dtb = late(out, after_depth, b"dtb", buf, at, size, platform::DTB);
    late(out, after_dtb, b"smbios", buf, at, size, platform::SMBIOS)
}
