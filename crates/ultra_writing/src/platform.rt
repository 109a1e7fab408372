// The platform: type 1. An add is refused where a member is absent, so that a writer is given every member.
ghost use Rattle.std.specs.Prelude.{◌≡◌, ◌≤◌, length};
ghost use Rattle.byte_layout.specs.Fields.{cells, filled};
ghost use Rattle.byte_layout.specs.Stored.{over};
ghost use Rattle.ultra_format.specs.Additions.{platform_of, new_bytes};
ghost use Rattle.ultra_layout.specs.Sizes.{platform_size, platform_full_size};
ghost use Rattle.ultra_writing.specs.Leading.{platform_leading};

use ultra_layout::{platform, types};

// The header and the members that every platform has.
fn leading(part: &mut [u8], kind: u32, loader_major: u16, loader_minor: u16, name: &[u8], rsdp: u64)
    requires { (platform_size ≤ length part.old) × (length name.now ≤ 32) }
    ensures { part.new ≡ over (filled (cells (platform_leading kind loader_major loader_minor name.now rsdp))) part.old }
{
    crate::header(part, types::PLATFORM, platform::FULL_SIZE);
    words::store_u32(part, platform::KIND, kind);
    words::store_u16(part, platform::LOADER_MAJOR, loader_major);
    words::store_u16(part, platform::LOADER_MINOR, loader_minor);
    byte_layout::store_padded(part, platform::NAME, platform::NAME_WIDTH, name);
    words::store_u64(part, platform::RSDP, rsdp);
}

pub fn write(
    part: &mut [u8],
    kind: u32,
    loader_major: u16,
    loader_minor: u16,
    name: &[u8],
    rsdp: u64,
    higher_half_base: u64,
    depth: u8,
    dtb: u64,
    smbios: u64,
)
    requires { (platform_full_size ≤ length part.old) × (length name.now ≤ 32) }
    ensures { part.new ≡ over (new_bytes (platform_of kind loader_major loader_minor name.now rsdp higher_half_base depth dtb smbios)) part.old }
{
    leading(part, kind, loader_major, loader_minor, name, rsdp);
    words::store_u64(part, platform::HIGHER_HALF_BASE, higher_half_base);
    part[platform::DEPTH] = depth;
    byte_layout::clear(part, platform::RESERVED, platform::RESERVED_WIDTH);
    words::store_u64(part, platform::DTB, dtb);
    words::store_u64(part, platform::SMBIOS, smbios);
}
