// Where an attribute ends, and that it has a type: refusals 5 to 8.
ghost use Rattle.std.specs.Prelude.{◌≡◌, ◌≤◌, length};
ghost use Rattle.refusals.specs.Answers.{checked};
ghost use Rattle.ultra_stepping.specs.Checks.{bounds_check};

use ultra_layout::attribute;

// The first of 5 to 8 that the attribute at `at` breaks.
pub fn check(buf: &[u8], room: usize, at: usize) -> Result<(), u16>
    requires { (room ≤ length buf.now) × (at ≤ 4294967295) }
    ensures { result ≡ checked (bounds_check buf.now room at) }
{
    if room < at + 8 {
        return Err(refusals::HEADER);
    }
    let size = words::load_u32(buf, at + attribute::SIZE);
    if size < 8 {
        return Err(refusals::SIZE);
    }
    if size % 8 != 0 {
        return Err(refusals::SIZE);
    }
    if room < at + size as usize {
        return Err(refusals::OVERRUN);
    }
    if words::load_u32(buf, at) == 0 {
        return Err(refusals::TYPE);
    }
    Ok(())
}
