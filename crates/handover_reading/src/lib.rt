// Reading a lent Handover payload.
#![tactic(auto)]

mod head;
mod records;
mod strings;

ghost use Rattle.std.specs.Prelude.{◌≡◌, ◌+◌, ◌*◌, ◌≤◌, length};
ghost use Rattle.handover_reading.specs.PayloadReading.{body_answer, reading_of};

use refusals::Refusal;

// What comes after the head: the records, the agent's string, the records' strings.
fn body(buf: &[u8], count: u32, size: u32) -> Result<u32, Refusal>
    requires { (16 + 32 * count ≤ size) × (size ≤ length buf.now) × (count ≤ 1024) }
    ensures { result ≡ body_answer buf.now count size }
{
    records::each(buf, count, size)?;
    let table = 16 + 32 * count as usize;
    let extent = size as usize - table;
    if !strings::closes(buf, table, extent, words::load_u32(buf, 4)) {
        return Err(Refusal::new(refusals::STRING, 0));
    }
    strings::each(buf, count, size)
}

// Reads a payload: the used length, or the refusal.
pub fn read(buf: &[u8]) -> Result<u32, Refusal>
    ensures { result ≡ reading_of buf.now }
{
    if let Err(number) = head::check(buf) {
        return Err(Refusal::new(number, 0));
    }
    let size = words::load_u32(buf, 8);
    let count = words::load_u32(buf, 12);
    body(buf, count, size)
}
