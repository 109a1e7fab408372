// The framebuffer: type 6.
ghost use Rattle.std.specs.Prelude.{◌≡◌, ◌+◌, ◌≤◌, length};
ghost use Rattle.key_value_text.specs.LineOutput.{put_lines};
ghost use Rattle.ultra_format.specs.Decoding.{framebuffer_at};
ghost use Rattle.ultra_layout.specs.Sizes.{framebuffer_size};
ghost use Rattle.listing_format.specs.Listing.{framebuffer_lines};

use ultra_layout::framebuffer;

pub fn write(out: &mut [u8], to: u32, buf: &[u8], at: usize) -> u32
    requires { at + framebuffer_size ≤ length buf.now }
    ensures { (out.new, result) ≡ put_lines (out.old, to) (framebuffer_lines (framebuffer_at buf.now at)) }
{
    let width = framebuffer::width(buf, at) as u64;
    let height = framebuffer::height(buf, at) as u64;
    let pitch = framebuffer::pitch(buf, at) as u64;
    let bpp = framebuffer::bpp(buf, at) as u64;
    let format = framebuffer::format(buf, at) as u64;
    let address = framebuffer::address(buf, at);
    let numbers = [width, height, pitch, bpp, format, address];
    key_value_text::numbers_line(out, to, b"fb", b',', &numbers)
}
