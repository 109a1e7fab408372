// The head: refusals 1, 20, 3 and 21.
ghost use Rattle.std.specs.Prelude.{◌≡◌};
ghost use Rattle.refusals.specs.Answers.{checked};
ghost use Rattle.handover_reading.specs.PayloadReading.{head_check};

// The first of 1, 20, 3 and 21 that the head breaks.
pub fn check(buf: &[u8]) -> Result<(), u16>
    ensures { result ≡ checked (head_check buf.now) }
{
    if lent_buffers::room(buf) < 16 {
        return Err(refusals::SHORT);
    }
    if words::load_u32(buf, 0) != handover_format::MAGIC {
        return Err(refusals::MAGIC);
    }
    let count = words::load_u32(buf, 12);
    if count == 0 {
        return Err(refusals::COUNT);
    }
    if 1024 < count {
        return Err(refusals::COUNT);
    }
    let size = words::load_u32(buf, 8);
    if size < 16 + 32 * count {
        return Err(refusals::PAYLOAD);
    }
    if lent_buffers::room(buf) < size as usize {
        return Err(refusals::PAYLOAD);
    }
    Ok(())
}
