ghost use Rattle.std.specs.Prelude.{◌≡◌, ◌+◌, ◌≤◌, length};
ghost use Rattle.refusals.specs.Answers.{checked};
ghost use Rattle.ultra_format.specs.Contexts.{Body};
ghost use Rattle.ultra_format.specs.Members.{body_check};
ghost use Rattle.ultra_format.specs.Decoding.{framebuffer_at};

use ultra_layout::framebuffer;

// The first of 12 to 16 that the framebuffer in the `size` bytes from `at` on breaks.
pub fn check(bytes: &[u8], at: usize, size: u32) -> Result<(), u16>
    requires { at + size ≤ length bytes.now }
    ensures { result ≡ checked (body_check size (Body.framebuffer (framebuffer_at bytes.now at))) }
{
    if size < framebuffer::LEAST_SIZE {
        return Err(refusals::FORM);
    }
    let width = framebuffer::width(bytes, at);
    let height = framebuffer::height(bytes, at);
    let pitch = framebuffer::pitch(bytes, at);
    let bpp = framebuffer::bpp(bytes, at);
    let format = framebuffer::format(bytes, at);
    let address = framebuffer::address(bytes, at);
    ultra_rules::framebuffer::check(width, height, pitch, bpp, format, address)
}
