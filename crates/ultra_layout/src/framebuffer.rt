// The framebuffer: type 6.
ghost use Rattle.std.specs.Prelude.{◌≡◌, ◌+◌, ◌≤◌, length};
ghost use Rattle.ultra_format.specs.Decoding.{framebuffer_at};
ghost use Rattle.ultra_layout.specs.Sizes.{framebuffer_size};

pub const LEAST_SIZE: u32 = 32;

pub const WIDTH: usize = 8;

pub const HEIGHT: usize = 12;

pub const PITCH: usize = 16;

pub const BPP: usize = 20;

pub const FORMAT: usize = 22;

pub const ADDRESS: usize = 24;

pub fn width(bytes: &[u8], at: usize) -> u32
    requires { at + framebuffer_size ≤ length bytes.now }
    ensures { result ≡ (framebuffer_at bytes.now at).width }
{
    words::load_u32(bytes, at + WIDTH)
}

pub fn height(bytes: &[u8], at: usize) -> u32
    requires { at + framebuffer_size ≤ length bytes.now }
    ensures { result ≡ (framebuffer_at bytes.now at).height }
{
    words::load_u32(bytes, at + HEIGHT)
}

pub fn pitch(bytes: &[u8], at: usize) -> u32
    requires { at + framebuffer_size ≤ length bytes.now }
    ensures { result ≡ (framebuffer_at bytes.now at).pitch }
{
    words::load_u32(bytes, at + PITCH)
}

pub fn bpp(bytes: &[u8], at: usize) -> u16
    requires { at + framebuffer_size ≤ length bytes.now }
    ensures { result ≡ (framebuffer_at bytes.now at).bpp }
{
    words::load_u16(bytes, at + BPP)
}

pub fn format(bytes: &[u8], at: usize) -> u16
    requires { at + framebuffer_size ≤ length bytes.now }
    ensures { result ≡ (framebuffer_at bytes.now at).format }
{
    words::load_u16(bytes, at + FORMAT)
}

pub fn address(bytes: &[u8], at: usize) -> u64
    requires { at + framebuffer_size ≤ length bytes.now }
    ensures { result ≡ (framebuffer_at bytes.now at).address }
{
    words::load_u64(bytes, at + ADDRESS)
}
