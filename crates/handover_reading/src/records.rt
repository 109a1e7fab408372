// Record by record: refusals 23 and 15.
ghost use Rattle.std.specs.Prelude.{◌≡◌, ◌+◌, ◌*◌, ◌≤◌, length};
ghost use Rattle.refusals.specs.Answers.{checked};
ghost use Rattle.handover_reading.specs.PayloadReading.{words_check, record_check, each_of};

use handover_format::Record;
use refusals::Refusal;

// The first of 23 and 15 that a record breaks.
fn check(last: bool, given: Record) -> Result<(), u16>
    ensures { result ≡ checked (words_check last given) }
{
    if !handover_format::end_suits(last, given.tag) {
        return Err(refusals::END);
    }
    if !address_ranges::fits(given.start, given.size) {
        return Err(refusals::RANGE);
    }
    Ok(())
}

// The first refusal of `count` records, or the size.
pub fn each(buf: &[u8], count: u32, size: u32) -> Result<u32, Refusal>
    requires { (16 + 32 * count ≤ length buf.now) × (count ≤ 1024) }
    ensures { result ≡ each_of (record_check buf.now count) size 0 count }
{
    for i in 0..count {
        let at = 16 + 32 * i;
        if let Err(number) = check(i + 1 == count, handover_format::load(buf, at as usize)) {
            return Err(Refusal::at(number, i, at));
        }
    }
    Ok(size)
}
