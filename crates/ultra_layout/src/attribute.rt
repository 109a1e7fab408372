// "Each attribute begins with type u32 and size u32"
ghost use Rattle.std.specs.Prelude.{◌≡◌, ◌+◌, ◌≤◌, length};
ghost use Rattle.words.specs.Words.{u32_at};

pub const SIZE: usize = 4;

pub fn kind(bytes: &[u8], at: usize) -> u32
    requires { at + 8 ≤ length bytes.now }
    ensures { result ≡ u32_at bytes.now at }
{
    words::load_u32(bytes, at)
}

pub fn size(bytes: &[u8], at: usize) -> u32
    requires { at + 8 ≤ length bytes.now }
    ensures { result ≡ u32_at bytes.now (at + 4) }
{
    words::load_u32(bytes, at + SIZE)
}
