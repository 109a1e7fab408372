// The head: refusals 1 to 4.
ghost use Rattle.std.specs.Prelude.{◌≡◌};
ghost use Rattle.refusals.specs.Answers.{checked};
ghost use Rattle.ultra_stepping.specs.Checks.{head_check};

// The first of 1 to 4 that the head breaks; `fewest` is the lower limit of the count.
pub fn check(buf: &[u8], fewest: u32) -> Result<(), u16>
    ensures { result ≡ checked (head_check fewest buf.now) }
{
    if lent_buffers::room(buf) < 8 {
        return Err(refusals::SHORT);
    }
    if buf[0] == 0 {
        return Err(refusals::VERSION);
    }
    let count = words::load_u32(buf, ultra_layout::head::COUNT);
    if 1024 < count {
        return Err(refusals::COUNT);
    }
    if count < fewest {
        return Err(refusals::MISSING);
    }
    Ok(())
}
