// An entry of the memory map, of `WIDTH` bytes, that starts at `at`.
ghost use Rattle.std.specs.Prelude.{◌≡◌, ◌+◌, ◌≤◌, length};
ghost use Rattle.ultra_format.specs.Decoding.{entry_at};
ghost use Rattle.ultra_layout.specs.Sizes.{entry_size};

pub const WIDTH: usize = 24;

pub const SIZE: usize = 8;

pub const KIND: usize = 16;

pub fn address(bytes: &[u8], at: usize) -> u64
    requires { at + entry_size ≤ length bytes.now }
    ensures { result ≡ (entry_at bytes.now at).address }
{
    words::load_u64(bytes, at)
}

pub fn size(bytes: &[u8], at: usize) -> u64
    requires { at + entry_size ≤ length bytes.now }
    ensures { result ≡ (entry_at bytes.now at).size }
{
    words::load_u64(bytes, at + SIZE)
}

pub fn kind(bytes: &[u8], at: usize) -> u64
    requires { at + entry_size ≤ length bytes.now }
    ensures { result ≡ (entry_at bytes.now at).entry_type }
{
    words::load_u64(bytes, at + KIND)
}
