// The records of document 01's table, by value: what a question hands back and what an add is given. A text has zeros after it up to the
// end of its array; one given otherwise is refused as 14.

// Members "from higher half base on" can be absent: "An absent one is marked absent, not zero."
#[derive(Clone, Copy)]
pub struct PlatformRecord {
    pub kind: u32,
    pub loader_major: u16,
    pub loader_minor: u16,
    pub name: [u8; 32],
    pub rsdp: u64,
    pub higher_half_base: Option<u64>,
    pub depth: Option<u8>,
    pub dtb: Option<u64>,
    pub smbios: Option<u64>,
}

#[derive(Clone, Copy)]
pub struct KernelRecord {
    pub physical_base: u64,
    pub virtual_base: u64,
    pub size: u64,
    pub partition_type: u64,
    pub disk_guid: [u8; 16],
    pub partition_guid: [u8; 16],
    pub disk_index: u32,
    pub partition_index: u32,
    pub path: [u8; 256],
}

#[derive(Clone, Copy)]
pub struct ModuleRecord {
    pub kind: u32,
    pub name: [u8; 64],
    pub address: u64,
    pub size: u64,
}

#[derive(Clone, Copy)]
pub struct FramebufferRecord {
    pub width: u32,
    pub height: u32,
    pub pitch: u32,
    pub bpp: u16,
    pub format: u16,
    pub address: u64,
}

// A record of each type: the attribute's own, and blank ones (zeros, absent members) beside it.
#[derive(Clone, Copy)]
pub struct Records {
    pub platform: PlatformRecord,
    pub kernel: KernelRecord,
    pub module: ModuleRecord,
    pub framebuffer: FramebufferRecord,
}
