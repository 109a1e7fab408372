// Exporting an accepted context to a Handover payload: request R-6. Sizes are counted first, then the records are stored, then the strings; no
// list of records is kept.
#![tactic(auto)]

ghost use Rattle.std.specs.Prelude.{◌≡◌, ◌++◌, ◌+◌, ◌≤◌, length};
ghost use Rattle.refusals.specs.Answers.{checked};
ghost use Rattle.byte_layout.specs.Stored.{over, closed};
ghost use Rattle.ultra_format.specs.Decoding.{context_of};
ghost use Rattle.ultra_locating.specs.Passing.{Accepts};
ghost use Rattle.handover_format.specs.Payloads.{record_start};
ghost use Rattle.handover_format.specs.WrittenForm.{strings, rows_bytes, payload_size, payload_bytes};
ghost use Rattle.handover_writing.specs.Stores.{put};
ghost use Rattle.export_list.specs.ExportList.{between, entries_of, agent_of};
ghost use Rattle.handover_export.specs.Exporting.{tests_of, exported};

use refusals::Refusal;
use ultra_layout::{head, platform};

// The most records that a payload may have: "3 for more than 1,024 records".
const MOST_RECORDS: u64 = 1024;

// The first of 3, 15 and 18 that is given.
#[tactic(auto, unfolding(crate::specs::Exporting::tests_of))]
fn check(count: u64, size: u64, load: u64, rsdp: u64, room: u64) -> Result<(), u16>
    ensures { result ≡ checked (tests_of count size load rsdp room) }
{
    if MOST_RECORDS < count {
        return Err(refusals::COUNT);
    }
    if !address_ranges::fits(load, size) || !address_ranges::fits(rsdp, export_list::RSDP_SIZE) {
        return Err(refusals::RANGE);
    }
    if room < size {
        return Err(refusals::ROOM);
    }
    Ok(())
}

// The records, SELF with the payload's size and the end among them.
fn records(buf: &[u8], load: u64, out: &mut [u8], size: u64)
    requires accepts { Accepts buf.now }
    requires buf_in_bounds { (record_start (length (between (context_of buf.now).attributes) + 2) ≤ length out.old) × (length (closed (agent_of (context_of buf.now)) ++ strings (between (context_of buf.now).attributes)) ≤ 65536) }
    ensures { out.new ≡ put out.old 16 (rows_bytes (length (closed (agent_of (context_of buf.now)))) (entries_of load size (context_of buf.now).attributes)) }
{
    let agent = export_sizes::agent(buf);
    let first = export_records::bare(out, agent, handover_format::HANDOVER_SELF, load, size);
    let rest = export_records::between(buf, out, first);
    export_records::bare(out, rest, handover_format::HANDOVER_END, 0, 0);
}

// The payload of `count` records and `size` bytes, which the output has room for.
fn fill(buf: &[u8], load: u64, out: &mut [u8], count: u32, size: u32)
    requires accepts { Accepts buf.now }
    requires count_value { (count ≡ length (entries_of load size (context_of buf.now).attributes)) × (size ≡ payload_size (agent_of (context_of buf.now)) (entries_of load size (context_of buf.now).attributes)) × (size ≤ length out.old) × (size ≤ 65536) }
    ensures { out.new ≡ over (payload_bytes (agent_of (context_of buf.now)) (entries_of load size (context_of buf.now).attributes)) out.old }
{
    handover_writing::head(out, size, count);
    records(buf, load, out, size as u64);
    export_strings::table(buf, out, 16 + 32 * count as usize);
}

// Writes the payload that an accepted context is exported to, to be loaded at `load`: its size, or the refusal, which changes nothing.
pub fn export(buf: &[u8], load: u64, out: &mut [u8]) -> Result<u32, Refusal>
    ensures { (result, out.new) ≡ exported buf.now load out.old }
{
    let answer = ultra_reading::used_length(buf, 2);
    let Ok(_) = answer else {
        return answer;
    };
    let payload = export_sizes::payload(buf);
    let size = 16 + 32 * payload.count + payload.width;
    let rsdp = platform::rsdp(buf, head::WIDTH);
    let room = lent_buffers::room(out) as u64;
    if let Err(number) = check(payload.count, size, load, rsdp, room) {
        return Err(Refusal::new(number, 0));
    }
    fill(buf, load, out, payload.count as u32, size as u32);
    Ok(size as u32)
}
