// The platform: type 1.
ghost use Rattle.std.specs.Prelude.{◌≡◌, ◌+◌, ◌≤◌, length};
ghost use Rattle.ultra_format.specs.Decoding.{platform_at};
ghost use Rattle.ultra_format.specs.Records.{platform_record, blank_platform};
ghost use Rattle.ultra_layout.specs.Sizes.{platform_size};

use ultra_format::PlatformRecord;
use ultra_layout::platform;

pub fn blank() -> PlatformRecord
    ensures { result ≡ platform_record blank_platform }
{
    PlatformRecord {
        kind: 0,
        loader_major: 0,
        loader_minor: 0,
        name: [0u8; 32],
        rsdp: 0,
        higher_half_base: None,
        depth: None,
        dtb: None,
        smbios: None,
    }
}

// The members of the platform that starts at `at` and has `size` bytes.
pub fn read(bytes: &[u8], at: usize, size: u32) -> PlatformRecord
    requires { (at + size ≤ length bytes.now) × (platform_size ≤ size) }
    ensures { result ≡ platform_record (platform_at bytes.now at size) }
{
    let mut name = [0u8; 32];
    byte_layout::copy_text(bytes, at + platform::NAME, &mut name);
    let kind = platform::kind(bytes, at);
    let loader_major = platform::loader_major(bytes, at);
    let loader_minor = platform::loader_minor(bytes, at);
    let rsdp = platform::rsdp(bytes, at);
    let higher_half_base = platform::higher_half_base(bytes, at, size);
    let depth = platform::depth(bytes, at, size);
    let dtb = platform::dtb(bytes, at, size);
    let smbios = platform::smbios(bytes, at, size);
    PlatformRecord {
        kind,
        loader_major,
        loader_minor,
        name,
        rsdp,
        higher_half_base,
        depth,
        dtb,
        smbios,
    }
}
