ghost use Rattle.std.specs.Prelude.{◌≡◌};
ghost use Rattle.refusals.specs.Answers.{checked};
ghost use Rattle.ultra_format.specs.Additions.{Addition, addition_check};

use ultra_format::FramebufferRecord;

// The first of 12 to 16 that the framebuffer given breaks.
pub fn check(given: FramebufferRecord) -> Result<(), u16>
    ensures { result ≡ checked (addition_check (Addition.add_framebuffer given)) }
{
    ultra_rules::framebuffer::check(
        given.width,
        given.height,
        given.pitch,
        given.bpp,
        given.format,
        given.address,
    )
}
