// Questions to a Handover payload: the agent, and the record at an index. Each reads first.
#![tactic(auto)]

ghost use Rattle.std.specs.Prelude.{◌≡◌, true, ◌+◌, ◌≤◌, length};
ghost use Rattle.handover_format.specs.PayloadDecoding.{pick, string_at};
ghost use Rattle.handover_format.specs.RecordTests.{if_named};
ghost use Rattle.handover_reading.specs.PayloadReading.{closes};
ghost use Rattle.lent_buffers.specs.LentParts.{no_part};
ghost use Rattle.handover_questions.specs.Questions.{string_part, agent_refused, record_refused, agent_answer, index_answer, record_answer, AgentHandedBack, NameHandedBack, MetaHandedBack};

use handover_format::Record;
use lent_buffers::Part;
use refusals::Refusal;

// What the question about the agent answers: done, with the used length, or the refusal; then the offset and the string's part. They stand
// beside the answer and not in it: `agent_alone` and `index_alone` (handover_demand_3) say what they are beside a refusal.
#[derive(Clone, Copy)]
pub struct AgentAnswer {
    pub answer: Result<u32, Refusal>,
    pub offset: u32,
    pub name: Part,
}

// What the question about a record answers: the same, with the record's words and the parts of the strings that it names.
#[derive(Clone, Copy)]
pub struct RecordAnswer {
    pub answer: Result<u32, Refusal>,
    pub words: Record,
    pub name: Part,
    pub meta: Part,
}

// The part of the string at `offset` of the table, which is the `extent` bytes from `table` on.
#[tactic(auto, unfolding(handover_reading::specs::PayloadReading::closes))]
fn string_part(buf: &[u8], table: usize, extent: usize, offset: u32) -> Part
    requires extent_in_bounds { (table + extent ≤ length buf.now) × (table + extent ≤ 65536) }
    requires offset_value { closes buf.now table extent offset ≡ true }
    ensures { result ≡ string_part table offset (string_at buf.now table extent offset) }
{
    let at = offset as usize;
    let length = byte_layout::text_length(buf, table + at, extent - at);
    Part {
        start: (table + at) as u32,
        length: length as u32,
    }
}

// The same where it is named.
#[tactic(auto, unfolding(handover_format::specs::RecordTests::if_named))]
fn named_part(buf: &[u8], table: usize, extent: usize, named: bool, offset: u32) -> Part
    requires extent_in_bounds { (table + extent ≤ length buf.now) × (table + extent ≤ 65536) }
    requires offset_value { if_named named (closes buf.now table extent offset) ≡ true }
    ensures { result ≡ pick named (string_part table offset (string_at buf.now table extent offset)) no_part }
{
    if named {
        string_part(buf, table, extent, offset)
    } else {
        lent_buffers::no_part()
    }
}

// Nothing but the refusal that is passed on.
fn no_agent(answer: Result<u32, Refusal>) -> AgentAnswer
    ensures { result ≡ agent_refused answer }
{
    let name = lent_buffers::no_part();
    AgentAnswer {
        answer,
        offset: 0,
        name,
    }
}

// The agent.
pub fn agent(buf: &[u8]) -> AgentAnswer
    ensures { result ≡ agent_answer buf.now }
{
    let answer = handover_reading::read(buf);
    let Ok(size) = answer else {
        return no_agent(answer);
    };
    let offset = words::load_u32(buf, 4);
    let table = 16 + 32 * words::load_u32(buf, 12) as usize;
    let name = string_part(buf, table, size as usize - table, offset);
    AgentAnswer {
        answer: Ok(size),
        offset,
        name,
    }
}

// The used length where there is a record at `index`, or the refusal.
fn indexed(buf: &[u8], index: u64) -> Result<u32, Refusal>
    ensures { result ≡ index_answer buf.now index }
{
    let answer = handover_reading::read(buf);
    let Ok(size) = answer else {
        return answer;
    };
    if words::load_u32(buf, 12) as u64 <= index {
        return Err(Refusal::new(refusals::COUNT, size));
    }
    Ok(size)
}

fn no_answer(answer: Result<u32, Refusal>) -> RecordAnswer
    ensures { result ≡ record_refused answer }
{
    let name = lent_buffers::no_part();
    let meta = lent_buffers::no_part();
    RecordAnswer {
        answer,
        words: Record::default(),
        name,
        meta,
    }
}

// The record at `index`.
pub fn record_at(buf: &[u8], index: u64) -> RecordAnswer
    ensures { result ≡ record_answer buf.now index }
{
    let answer = indexed(buf, index);
    let Ok(size) = answer else {
        return no_answer(answer);
    };
    let table = 16 + 32 * words::load_u32(buf, 12) as usize;
    let extent = size as usize - table;
    let row = handover_format::load(buf, 16 + 32 * index as usize);
    let name = named_part(
        buf,
        table,
        extent,
        handover_format::names_name(row.tag),
        row.name,
    );
    let meta = named_part(
        buf,
        table,
        extent,
        handover_format::names_meta(row.tag),
        row.meta,
    );
    RecordAnswer {
        answer: Ok(size),
        words: row,
        name,
        meta,
    }
}

// The agent's string, as a slice of the lent buffer; an empty one where the payload is refused.
#[tactic(auto, using(crate::proofs::PartLaws::agent_within))]
pub fn agent_name(buf: &[u8]) -> &[u8]
    ensures { AgentHandedBack result buf.entry }
{
    let answer = agent(buf);
    lent_buffers::slice(buf, answer.name)
}

// The string that the record at `index` names by its word `name`; an empty one where it names none or is refused.
#[tactic(auto, using(crate::proofs::PartLaws::record_within))]
pub fn record_name(buf: &[u8], index: u64) -> &[u8]
    ensures { NameHandedBack result buf.entry index }
{
    let answer = record_at(buf, index);
    lent_buffers::slice(buf, answer.name)
}

// The same of its word `meta`.
#[tactic(auto, using(crate::proofs::PartLaws::record_within))]
pub fn record_meta(buf: &[u8], index: u64) -> &[u8]
    ensures { MetaHandedBack result buf.entry index }
{
    let answer = record_at(buf, index);
    lent_buffers::slice(buf, answer.meta)
}
