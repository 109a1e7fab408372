// What is given, judged before anything is written: refusals 3, 23, 15, 22 and 18.
ghost use Rattle.std.specs.Prelude.{◌≡◌, ◌+◌, ◌*◌, ◌≤◌, length};
ghost use Rattle.refusals.specs.Answers.{checked};
ghost use Rattle.handover_format.specs.RecordTests.{if_named};
ghost use Rattle.handover_arguments.specs.Judging.{every, end_good, range_good, run_has, string_good, strings_good, write_check};

use crate::parts;

// Whether every record has the end tag just where it must. Here, in `ranges` and in `all_strings` a `for`, and no `(0..count).all(..)`: its
// goal stays open, since the closure needs `32 * i` to lie within the records.
#[tactic(auto, using(crate::proofs::EveryLaws::every_none, crate::proofs::EveryLaws::every_more))]
fn ends(records: &[u8], count: usize) -> bool
    requires { (32 * count ≤ length records.now) × (count ≤ 1024) }
    ensures { result ≡ every (end_good records.now count) count }
{
    for i in 0..count {
        if !handover_format::end_suits(i + 1 == count, words::load_u32(records, 32 * i)) {
            return false;
        }
    }
    true
}

// Whether no record's range passes 2^64.
#[tactic(auto, using(crate::proofs::EveryLaws::every_none, crate::proofs::EveryLaws::every_more))]
fn ranges(records: &[u8], count: usize) -> bool
    requires { (32 * count ≤ length records.now) × (count ≤ 1024) }
    ensures { result ≡ every (range_good records.now) count }
{
    for i in 0..count {
        let start = words::load_u64(records, 32 * i + 8);
        if !address_ranges::fits(start, words::load_u64(records, 32 * i + 16)) {
            return false;
        }
    }
    true
}

// Whether the `size` bytes from `start` on lie within the run, with no zero among them.
#[tactic(auto, unfolding(crate::specs::Judging::run_has))]
fn run_has(run: &[u8], start: u64, size: u64) -> bool
    ensures { result ≡ run_has run.now start size }
{
    let all = run.len() as u64;
    start <= all
        && size <= all - start
        && byte_layout::text_length(run, start as usize, size as usize) == size as usize
}

// Whether the string whose numbers are at `k` can be written, where it is named: its numbers are lent, and the run has it.
#[tactic(auto, unfolding(handover_format::specs::RecordTests::if_named, crate::specs::Judging::string_good))]
fn string_good(parts: &[u64], run: &[u8], k: usize, named: bool) -> bool
    requires { k ≤ 65536 }
    ensures { result ≡ if_named named (string_good parts.now run.now k) }
{
    !named
        || k + 2 <= parts.len()
            && run_has(run, parts::start_at(parts, k), parts::length_at(parts, k))
}

// Whether the strings that record `i` names can be written.
#[tactic(auto, unfolding(crate::specs::Judging::strings_good))]
fn strings_good(records: &[u8], parts: &[u64], run: &[u8], i: usize) -> bool
    requires { (32 * i + 32 ≤ length records.now) × (i ≤ 1024) }
    ensures { result ≡ strings_good records.now parts.now run.now i }
{
    let tag = words::load_u32(records, 32 * i);
    string_good(parts, run, 4 * i + 2, handover_format::names_name(tag))
        && string_good(parts, run, 4 * i + 4, handover_format::names_meta(tag))
}

// The same of all records.
#[tactic(auto, using(crate::proofs::EveryLaws::every_none, crate::proofs::EveryLaws::every_more))]
fn all_strings(records: &[u8], parts: &[u64], run: &[u8], count: usize) -> bool
    requires { (32 * count ≤ length records.now) × (count ≤ 1024) }
    ensures { result ≡ every (strings_good records.now parts.now run.now) count }
{
    for i in 0..count {
        if !strings_good(records, parts, run, i) {
            return false;
        }
    }
    true
}

// The first of 3, 23, 15, 22 and 18 that what is given breaks in a room.
#[tactic(auto, using(crate::proofs::MeasureLaws::size_given_law), unfolding(handover_format::specs::RecordTests::if_named, crate::specs::Judging::write_check))]
pub fn check(records: &[u8], parts: &[u64], run: &[u8], room: usize) -> Result<(), u16>
    requires { room ≤ 65536 }
    ensures { result ≡ checked (write_check records.now parts.now run.now room) }
{
    let count = records.len() / 32;
    if count == 0 || 1024 < count {
        return Err(refusals::COUNT);
    }
    if !ends(records, count) {
        return Err(refusals::END);
    }
    if !ranges(records, count) {
        return Err(refusals::RANGE);
    }
    if !string_good(parts, run, 0, true) || !all_strings(records, parts, run, count) {
        return Err(refusals::STRING);
    }
    if (room as u64) < crate::measure::size(records, parts, count) {
        return Err(refusals::ROOM);
    }
    Ok(())
}
