// The records and the strings of a payload. What is given has been judged, so that nothing here can fail.
ghost use Rattle.std.specs.Prelude.{◌≡◌, true, List, ◌++◌, ℕ, ◌+◌, ◌*◌, ◌≤◌, length};
ghost use Rattle.words.specs.Words.{replaced};
ghost use Rattle.byte_layout.specs.Fields.{cells, filled};
ghost use Rattle.byte_layout.specs.Stored.{closed};
ghost use Rattle.handover_format.specs.Payloads.{record_start};
ghost use Rattle.handover_format.specs.PayloadLayouts.{record_fields, entries_fields};
ghost use Rattle.handover_format.specs.RecordTests.{if_named};
ghost use Rattle.handover_format.specs.WrittenForm.{closed_if, strings_of, strings, words_at, placed_from};
ghost use Rattle.handover_arguments.specs.PayloadGiven.{record_given, agent_part, string_given, agent_given, entry_given, entries_from};
ghost use Rattle.handover_arguments.specs.Judging.{every, string_good, strings_good};
ghost use Rattle.handover_arguments.specs.Measures.{name_width, meta_width, strings_start};
ghost use Rattle.handover_writing.specs.Stores.{put};

// Record `i` with its strings at the offset `at`: answers the offset after them.
fn row_at(out: &mut [u8], records: &[u8], parts: &[u64], i: usize, at: u64) -> u64
    requires i_in_bounds { (32 * i + 32 ≤ length records.now) × (i ≤ 1024) × (record_start i + 32 ≤ length out.old) }
    requires i_bound { at + name_width records.now parts.now i + meta_width records.now parts.now i ≤ 65536 }
    ensures value { result ≡ at + name_width records.now parts.now i + meta_width records.now parts.now i }
    ensures out_after { out.new ≡ replaced out.old (record_start i) 32 (filled (cells (record_fields (words_at (record_given records.now i) at (at + name_width records.now parts.now i))))) }
{
    let given = handover_format::load(records, 32 * i);
    let meta = handover_arguments::with_name(at, given.tag, parts, i);
    crate::store::row(
        out,
        16 + 32 * i,
        crate::store::placed(given, at as u32, meta as u32),
    );
    handover_arguments::with_meta(meta, given.tag, parts, i)
}

// The records, each with its strings' offsets set. Of the strings only the lengths count, whatever the run has.
#[tactic(auto, using(handover_arguments::proofs::MeasureLaws::start_next, crate::proofs::FillLaws::next_rows))]
pub fn rows(out: &mut [u8], records: &[u8], parts: &[u64], count: usize)
    requires count_in_bounds { (32 * count ≤ length records.now) × (count ≤ 1024) × (record_start count ≤ length out.old) }
    requires count_bound { strings_start records.now parts.now count ≤ 65536 }
    ensures { (run : List ℕ) → out.new ≡ put out.old 16 (filled (cells (entries_fields (placed_from (length (closed (agent_given parts.now run))) (entries_from records.now parts.now run 0 count))))) }
{
    let mut at = handover_arguments::agent_width(parts);
    for i in 0..count {
        at = row_at(out, records, parts, i, at);
    }
}

// The string whose numbers are at `k`, where it is named, from `at` on: answers where it ends.
#[tactic(auto, using(handover_arguments::proofs::JudgeLaws::string_said, handover_format::proofs::WrittenLaws::length_closed, byte_layout::proofs::Copies::length_stored, crate::proofs::StoreLaws::put_none, crate::proofs::StoreLaws::stored), unfolding(handover_format::specs::RecordTests::if_named, handover_format::specs::WrittenForm::closed_if))]
fn string_at(out: &mut [u8], parts: &[u64], run: &[u8], k: usize, named: bool, at: usize) -> usize
    requires k_value { (if_named named (string_good parts.now run.now k) ≡ true) × (k ≤ 65536) }
    requires k_in_bounds { at + length (closed_if named (string_given parts.now run.now k)) ≤ length out.old }
    ensures value { result ≡ at + length (closed_if named (string_given parts.now run.now k)) }
    ensures out_after { out.new ≡ put out.old at (closed_if named (string_given parts.now run.now k)) }
{
    if !named {
        return at;
    }
    let start = handover_arguments::start_at(parts, k) as usize;
    let size = handover_arguments::length_at(parts, k) as usize;
    crate::store::string(run, start, size, out, at);
    at + size + 1
}

// The strings that record `i` names, from `at` on: answers where they end.
#[tactic(auto, using(handover_arguments::proofs::JudgeLaws::strings_said, crate::proofs::FillLaws::both_length, crate::proofs::FillLaws::both_stored))]
fn strings_at(
    out: &mut [u8],
    records: &[u8],
    parts: &[u64],
    run: &[u8],
    i: usize,
    at: usize,
) -> usize
    requires i_in_bounds { (32 * i + 32 ≤ length records.now) × (i ≤ 1024) × (strings_good records.now parts.now run.now i ≡ true) }
    requires i_in_bounds_2 { at + length (strings_of (entry_given records.now parts.now run.now i)) ≤ length out.old }
    ensures value { result ≡ at + length (strings_of (entry_given records.now parts.now run.now i)) }
    ensures out_after { out.new ≡ put out.old at (strings_of (entry_given records.now parts.now run.now i)) }
{
    let tag = words::load_u32(records, 32 * i);
    let name = handover_format::names_name(tag);
    let meta = handover_format::names_meta(tag);
    let next = string_at(out, parts, run, 4 * i + 2, name, at);
    string_at(out, parts, run, 4 * i + 4, meta, next)
}

// The strings that the records name, from `first` on.
fn strings(out: &mut [u8], records: &[u8], parts: &[u64], run: &[u8], count: usize, first: usize)
    requires count_in_bounds { (32 * count ≤ length records.now) × (count ≤ 1024) × (every (strings_good records.now parts.now run.now) count ≡ true) }
    requires count_in_bounds_2 { first + length (strings (entries_from records.now parts.now run.now 0 count)) ≤ length out.old }
    ensures { out.new ≡ put out.old first (strings (entries_from records.now parts.now run.now 0 count)) }
{
    let mut at = first;
    for i in 0..count {
        at = strings_at(out, records, parts, run, i, at);
    }
}

// The string table: the agent's string, then those that the records name.
#[tactic(auto, unfolding(handover_format::specs::RecordTests::if_named, handover_format::specs::WrittenForm::closed_if))]
pub fn table(out: &mut [u8], records: &[u8], parts: &[u64], run: &[u8], count: usize)
    requires count_in_bounds { (32 * count ≤ length records.now) × (count ≤ 1024) × (every (strings_good records.now parts.now run.now) count ≡ true) }
    requires agent_part_value { (string_good parts.now run.now agent_part ≡ true) × (record_start count + length (closed (agent_given parts.now run.now) ++ strings (entries_from records.now parts.now run.now 0 count)) ≤ length out.old) }
    ensures { out.new ≡ put out.old (record_start count) (closed (agent_given parts.now run.now) ++ strings (entries_from records.now parts.now run.now 0 count)) }
{
    let first = string_at(out, parts, run, 0, true, 16 + 32 * count);
    strings(out, records, parts, run, count, first);
}
