// The kernel: type 2.
ghost use Rattle.std.specs.Prelude.{◌≡◌, ◌+◌, ◌≤◌, length};
ghost use Rattle.byte_layout.specs.Stored.{bytes_at};
ghost use Rattle.ultra_format.specs.Decoding.{kernel_at};
ghost use Rattle.ultra_layout.specs.Sizes.{kernel_size};

pub const LEAST_SIZE: u32 = 336;

pub const PHYSICAL_BASE: usize = 8;

pub const VIRTUAL_BASE: usize = 16;

pub const SIZE: usize = 24;

pub const PARTITION_TYPE: usize = 32;

pub const DISK_GUID: usize = 40;

pub const PARTITION_GUID: usize = 56;

pub const GUID_WIDTH: usize = 16;

pub const DISK_INDEX: usize = 72;

pub const PARTITION_INDEX: usize = 76;

pub const PATH: usize = 80;

pub const PATH_WIDTH: usize = 256;

pub fn physical_base(bytes: &[u8], at: usize) -> u64
    requires { at + kernel_size ≤ length bytes.now }
    ensures { result ≡ (kernel_at bytes.now at).physical_base }
{
    words::load_u64(bytes, at + PHYSICAL_BASE)
}

pub fn virtual_base(bytes: &[u8], at: usize) -> u64
    requires { at + kernel_size ≤ length bytes.now }
    ensures { result ≡ (kernel_at bytes.now at).virtual_base }
{
    words::load_u64(bytes, at + VIRTUAL_BASE)
}

pub fn size(bytes: &[u8], at: usize) -> u64
    requires { at + kernel_size ≤ length bytes.now }
    ensures { result ≡ (kernel_at bytes.now at).size }
{
    words::load_u64(bytes, at + SIZE)
}

pub fn partition_type(bytes: &[u8], at: usize) -> u64
    requires { at + kernel_size ≤ length bytes.now }
    ensures { result ≡ (kernel_at bytes.now at).partition_type }
{
    words::load_u64(bytes, at + PARTITION_TYPE)
}

#[tactic(auto, using(byte_layout::proofs::Copies::bytes_whole))]
fn guid(bytes: &[u8], at: usize) -> [u8; 16]
    requires { at + 16 ≤ length bytes.now }
    ensures { result ≡ bytes_at bytes.now at 16 }
{
    let mut guid = [0u8; 16];
    byte_layout::copy(bytes, at, GUID_WIDTH, &mut guid);
    guid
}

pub fn disk_guid(bytes: &[u8], at: usize) -> [u8; 16]
    requires { at + kernel_size ≤ length bytes.now }
    ensures { result ≡ (kernel_at bytes.now at).disk_guid }
{
    guid(bytes, at + DISK_GUID)
}

pub fn partition_guid(bytes: &[u8], at: usize) -> [u8; 16]
    requires { at + kernel_size ≤ length bytes.now }
    ensures { result ≡ (kernel_at bytes.now at).partition_guid }
{
    guid(bytes, at + PARTITION_GUID)
}

pub fn disk_index(bytes: &[u8], at: usize) -> u32
    requires { at + kernel_size ≤ length bytes.now }
    ensures { result ≡ (kernel_at bytes.now at).disk_index }
{
    words::load_u32(bytes, at + DISK_INDEX)
}

pub fn partition_index(bytes: &[u8], at: usize) -> u32
    requires { at + kernel_size ≤ length bytes.now }
    ensures { result ≡ (kernel_at bytes.now at).partition_index }
{
    words::load_u32(bytes, at + PARTITION_INDEX)
}
