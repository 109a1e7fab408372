// The framebuffer: type 6.
ghost use Rattle.std.specs.Prelude.{◌≡◌, ◌≤◌, length};
ghost use Rattle.byte_layout.specs.Stored.{over};
ghost use Rattle.ultra_format.specs.Additions.{Addition, bytes_given};
ghost use Rattle.ultra_layout.specs.Sizes.{framebuffer_size};

use ultra_format::FramebufferRecord;
use ultra_layout::{framebuffer, types};

pub fn write(part: &mut [u8], given: FramebufferRecord)
    requires { framebuffer_size ≤ length part.old }
    ensures { part.new ≡ over (bytes_given (Addition.add_framebuffer given)) part.old }
{
    crate::header(part, types::FRAMEBUFFER, framebuffer::LEAST_SIZE);
    words::store_u32(part, framebuffer::WIDTH, given.width);
    words::store_u32(part, framebuffer::HEIGHT, given.height);
    words::store_u32(part, framebuffer::PITCH, given.pitch);
    words::store_u16(part, framebuffer::BPP, given.bpp);
    words::store_u16(part, framebuffer::FORMAT, given.format);
    words::store_u64(part, framebuffer::ADDRESS, given.address);
}
