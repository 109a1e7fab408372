// Records to add. Every member is set, no two are alike, and no byte of them is 165.
use ultra_format::{FramebufferRecord, KernelRecord, ModuleRecord, PlatformRecord};

// A field that begins with a text, and zeros after it.
pub fn field<const N: usize>(text: &[u8]) -> [u8; N] {
    let mut field = [0; N];
    if text.len() <= N {
        byte_layout::store(text, &mut field, 0);
    }
    field
}

pub fn platform() -> PlatformRecord {
    PlatformRecord {
        kind: 3,
        loader_major: 5,
        loader_minor: 6,
        name: field(b"frost"),
        rsdp: 917504,
        higher_half_base: Some(18446603336221196288),
        depth: Some(7),
        dtb: Some(73728),
        smbios: Some(81920),
    }
}

pub fn kernel() -> KernelRecord {
    KernelRecord {
        physical_base: 2097152,
        virtual_base: 18446744071564165120,
        size: 65536,
        partition_type: 8,
        disk_guid: *b"0123456789ABCDEF",
        partition_guid: *b"GHIJKLMNOPQRSTUV",
        disk_index: 9,
        partition_index: 10,
        path: field(b"/boot/k"),
    }
}

pub fn module() -> ModuleRecord {
    ModuleRecord {
        kind: 1,
        name: field(b"initrd"),
        address: 16777216,
        size: 123457,
    }
}

pub fn framebuffer() -> FramebufferRecord {
    FramebufferRecord {
        width: 1024,
        height: 768,
        pitch: 4100,
        bpp: 32,
        format: 3,
        address: 3489660928,
    }
}
