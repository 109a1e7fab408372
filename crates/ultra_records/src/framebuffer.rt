// The framebuffer: type 6.
ghost use Rattle.std.specs.Prelude.{◌≡◌, ◌+◌, ◌≤◌, length};
ghost use Rattle.ultra_format.specs.Decoding.{framebuffer_at};
ghost use Rattle.ultra_format.specs.Records.{framebuffer_record, blank_framebuffer};
ghost use Rattle.ultra_layout.specs.Sizes.{framebuffer_size};

use ultra_format::FramebufferRecord;
use ultra_layout::framebuffer;

pub fn blank() -> FramebufferRecord
    ensures { result ≡ framebuffer_record blank_framebuffer }
{
    FramebufferRecord {
        width: 0,
        height: 0,
        pitch: 0,
        bpp: 0,
        format: 0,
        address: 0,
    }
}

// The members of the framebuffer that starts at `at`.
pub fn read(bytes: &[u8], at: usize) -> FramebufferRecord
    requires { at + framebuffer_size ≤ length bytes.now }
    ensures { result ≡ framebuffer_record (framebuffer_at bytes.now at) }
{
    let width = framebuffer::width(bytes, at);
    let height = framebuffer::height(bytes, at);
    let pitch = framebuffer::pitch(bytes, at);
    let bpp = framebuffer::bpp(bytes, at);
    let format = framebuffer::format(bytes, at);
    let address = framebuffer::address(bytes, at);
    FramebufferRecord {
        width,
        height,
        pitch,
        bpp,
        format,
        address,
    }
}
