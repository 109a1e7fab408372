// The framebuffer: type 6.
ghost use Rattle.std.specs.Prelude.{◌≡◌, true, ◌*◌};
ghost use Rattle.refusals.specs.Answers.{checked};
ghost use Rattle.address_ranges.specs.Ranges.{range_fits};
ghost use Rattle.ultra_format.specs.Members.{bpp_suits, framebuffer_values, member_check};

#[tactic(auto, unfolding(ultra_format::specs::Members::bpp_suits))]
fn bpp_suits(format: u16, bpp: u16) -> bool
    ensures { result ≡ bpp_suits format bpp }
{
    match format {
        1 | 2 => bpp == 24,
        3 | 4 => bpp == 32,
        _ => false,
    }
}

#[tactic(auto, unfolding(ultra_format::specs::Members::framebuffer_values))]
fn values(width: u32, pitch: u32, bpp: u16, format: u16) -> bool
    ensures { result ≡ framebuffer_values width pitch bpp format }
{
    bpp_suits(format, bpp) && width as u64 * bpp as u64 <= pitch as u64 * 8
}

// The first rule that a framebuffer breaks.
pub fn check(
    width: u32,
    height: u32,
    pitch: u32,
    bpp: u16,
    format: u16,
    address: u64,
) -> Result<(), u16>
    ensures { result ≡ checked (member_check true (framebuffer_values width pitch bpp format) true (range_fits address (pitch * height)) true) }
{
    let value = values(width, pitch, bpp, format);
    let range = address_ranges::fits(address, pitch as u64 * height as u64);
    crate::first_broken(true, value, true, range, true)
}
