// Strings in the table: refusal 22.
ghost use Rattle.std.specs.Prelude.{◌≡◌, ◌+◌, ◌-◌, ◌*◌, ◌≤◌, length};
ghost use Rattle.refusals.specs.Answers.{checked};
ghost use Rattle.handover_format.specs.Payloads.{record_start};
ghost use Rattle.handover_format.specs.RecordTests.{if_named};
ghost use Rattle.handover_reading.specs.PayloadReading.{closes, strings_check, named_check, each_of};

use handover_format::Record;
use refusals::Refusal;

// Whether a string at `offset` of the table, which is the `extent` bytes from `table` on, starts and closes there.
pub fn closes(buf: &[u8], table: usize, extent: usize, offset: u32) -> bool
    requires { table + extent ≤ length buf.now }
    ensures { result ≡ closes buf.now table extent offset }
{
    let at = offset as usize;
    if extent <= at {
        return false;
    }
    byte_layout::text_length(buf, table + at, extent - at) < extent - at
}

// The same where it is named.
fn named_closes(buf: &[u8], table: usize, extent: usize, named: bool, offset: u32) -> bool
    requires { table + extent ≤ length buf.now }
    ensures { result ≡ if_named named (closes buf.now table extent offset) }
{
    if !named {
        return true;
    }
    closes(buf, table, extent, offset)
}

// 22 where a string that the record names does not close.
fn check(buf: &[u8], table: usize, extent: usize, given: Record) -> Result<(), u16>
    requires { table + extent ≤ length buf.now }
    ensures { result ≡ checked (strings_check buf.now table extent given) }
{
    let name = handover_format::names_name(given.tag);
    if !named_closes(buf, table, extent, name, given.name) {
        return Err(refusals::STRING);
    }
    let meta = handover_format::names_meta(given.tag);
    if !named_closes(buf, table, extent, meta, given.meta) {
        return Err(refusals::STRING);
    }
    Ok(())
}

// The first refusal of `count` records' strings, or the size.
pub fn each(buf: &[u8], count: u32, size: u32) -> Result<u32, Refusal>
    requires { (16 + 32 * count ≤ size) × (size ≤ length buf.now) × (count ≤ 1024) }
    ensures { result ≡ each_of (named_check buf.now (record_start count) (size - record_start count)) size 0 count }
{
    let table = 16 + 32 * count as usize;
    let extent = size as usize - table;
    for i in 0..count {
        let at = 16 + 32 * i;
        if let Err(number) = check(buf, table, extent, handover_format::load(buf, at as usize)) {
            return Err(Refusal::at(number, i, at));
        }
    }
    Ok(size)
}
