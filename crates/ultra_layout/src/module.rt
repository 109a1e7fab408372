// A module: type 4.
ghost use Rattle.std.specs.Prelude.{◌≡◌, ◌+◌, ◌≤◌, length};
ghost use Rattle.ultra_format.specs.Decoding.{module_at};
ghost use Rattle.ultra_layout.specs.Sizes.{module_size};

pub const LEAST_SIZE: u32 = 96;

pub const RESERVED: usize = 8;

pub const RESERVED_WIDTH: usize = 4;

pub const KIND: usize = 12;

pub const NAME: usize = 16;

pub const NAME_WIDTH: usize = 64;

pub const ADDRESS: usize = 80;

pub const SIZE: usize = 88;

pub fn kind(bytes: &[u8], at: usize) -> u32
    requires { at + module_size ≤ length bytes.now }
    ensures { result ≡ (module_at bytes.now at).module_type }
{
    words::load_u32(bytes, at + KIND)
}

pub fn address(bytes: &[u8], at: usize) -> u64
    requires { at + module_size ≤ length bytes.now }
    ensures { result ≡ (module_at bytes.now at).address }
{
    words::load_u64(bytes, at + ADDRESS)
}

pub fn size(bytes: &[u8], at: usize) -> u64
    requires { at + module_size ≤ length bytes.now }
    ensures { result ≡ (module_at bytes.now at).size }
{
    words::load_u64(bytes, at + SIZE)
}
