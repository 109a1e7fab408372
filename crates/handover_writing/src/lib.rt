// Writing a Handover payload: the records as given, with their strings lent in one run of bytes.
#![tactic(auto)]

mod fill;
mod store;

ghost use Rattle.std.specs.Prelude.{◌≡◌};
ghost use Rattle.handover_writing.specs.Writing.{payload_written};

use refusals::Refusal;
pub use store::{head, row, string};

// Writes a payload: its size, or the refusal, which changes nothing. `records` has 32 bytes for each record; `parts` has a start and a
// length in `run` for each string: the agent's, then each record's name and meta.
pub fn write(buf: &mut [u8], records: &[u8], parts: &[u64], run: &[u8]) -> Result<u32, Refusal>
    ensures { (result, buf.new) ≡ payload_written buf.old records.now parts.now run.now }
{
    if let Err(number) = handover_arguments::check(records, parts, run, lent_buffers::room(buf)) {
        return Err(Refusal::new(number, 0));
    }
    let count = records.len() / 32;
    let size = handover_arguments::size(records, parts, count) as u32;
    store::head(buf, size, count as u32);
    fill::rows(buf, records, parts, count);
    fill::table(buf, records, parts, run, count);
    Ok(size)
}
