// "Head, 8 bytes: major u8, minor u8, reserved u16, attribute count u32"
ghost use Rattle.std.specs.Prelude.{◌≡◌, ◌≤◌, length};
ghost use Rattle.ultra_format.specs.Decoding.{stored_count};

pub const WIDTH: usize = 8;

pub const COUNT: usize = 4;

pub fn count(bytes: &[u8]) -> u32
    requires { 8 ≤ length bytes.now }
    ensures { result ≡ stored_count bytes.now }
{
    words::load_u32(bytes, COUNT)
}
