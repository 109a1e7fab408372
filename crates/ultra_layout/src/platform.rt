// The platform: type 1. The members from the higher half base on are "present exactly if they end within the size".
ghost use Rattle.std.specs.Prelude.{◌≡◌, ◌+◌, ◌≤◌, length};
ghost use Rattle.ultra_format.specs.Decoding.{member_at, platform_at};
ghost use Rattle.ultra_format.specs.Records.{optional};
ghost use Rattle.ultra_layout.specs.Sizes.{platform_size};

pub const LEAST_SIZE: u32 = 56;

// With every member.
pub const FULL_SIZE: u32 = 88;

pub const KIND: usize = 8;

pub const LOADER_MAJOR: usize = 12;

pub const LOADER_MINOR: usize = 14;

pub const NAME: usize = 16;

pub const NAME_WIDTH: usize = 32;

pub const RSDP: usize = 48;

pub const HIGHER_HALF_BASE: usize = 56;

pub const DEPTH: usize = 64;

// "reserved 65..71"
pub const RESERVED: usize = 65;

pub const RESERVED_WIDTH: usize = 7;

pub const DTB: usize = 72;

pub const SMBIOS: usize = 80;

pub fn kind(bytes: &[u8], at: usize) -> u32
    requires { at + platform_size ≤ length bytes.now }
    ensures { result ≡ (platform_at bytes.now at platform_size).platform_type }
{
    words::load_u32(bytes, at + KIND)
}

pub fn loader_major(bytes: &[u8], at: usize) -> u16
    requires { at + platform_size ≤ length bytes.now }
    ensures { result ≡ (platform_at bytes.now at platform_size).loader_major }
{
    words::load_u16(bytes, at + LOADER_MAJOR)
}

pub fn loader_minor(bytes: &[u8], at: usize) -> u16
    requires { at + platform_size ≤ length bytes.now }
    ensures { result ≡ (platform_at bytes.now at platform_size).loader_minor }
{
    words::load_u16(bytes, at + LOADER_MINOR)
}

pub fn rsdp(bytes: &[u8], at: usize) -> u64
    requires { at + platform_size ≤ length bytes.now }
    ensures { result ≡ (platform_at bytes.now at platform_size).rsdp }
{
    words::load_u64(bytes, at + RSDP)
}

// A member of eight bytes at `offset` in the attribute.
fn optional(bytes: &[u8], at: usize, size: u32, offset: usize) -> Option<u64>
    requires { (at + size ≤ length bytes.now) × (offset ≤ 80) }
    ensures { result ≡ optional (member_at bytes.now at size offset 8) }
{
    if (size as usize) < offset + 8 {
        return None;
    }
    Some(words::load_u64(bytes, at + offset))
}

pub fn higher_half_base(bytes: &[u8], at: usize, size: u32) -> Option<u64>
    requires { at + size ≤ length bytes.now }
    ensures { result ≡ optional (platform_at bytes.now at size).higher_half_base }
{
    optional(bytes, at, size, HIGHER_HALF_BASE)
}

pub fn depth(bytes: &[u8], at: usize, size: u32) -> Option<u8>
    requires { at + size ≤ length bytes.now }
    ensures { result ≡ optional (platform_at bytes.now at size).depth }
{
    if (size as usize) < DEPTH + 1 {
        return None;
    }
    Some(bytes[at + DEPTH])
}

pub fn dtb(bytes: &[u8], at: usize, size: u32) -> Option<u64>
    requires { at + size ≤ length bytes.now }
    ensures { result ≡ optional (platform_at bytes.now at size).dtb }
{
    optional(bytes, at, size, DTB)
}

pub fn smbios(bytes: &[u8], at: usize, size: u32) -> Option<u64>
    requires { at + size ≤ length bytes.now }
    ensures { result ≡ optional (platform_at bytes.now at size).smbios }
{
    optional(bytes, at, size, SMBIOS)
}
