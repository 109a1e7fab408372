// The attribute at an index.
ghost use Rattle.std.specs.Prelude.{◌≡◌};
ghost use Rattle.ultra_questions.specs.AttributeQuestion.{attribute_start, attribute_answer, unanswered, PartHandedBack};

use lent_buffers::Part;
use refusals::Refusal;
use ultra_format::Records;
use ultra_layout::head;
use ultra_reading::Header;

// What the question answers: done, with the attribute's start, or the refusal; then its type, start and size, its members, and for a map
// or a command line the part of the buffer that has its entries or its text. They stand beside the answer and not in it: `QuestionRefusals`
// (ultra_question_statements) says what they are beside a refusal.
#[derive(Clone, Copy)]
pub struct AttributeAnswer {
    pub answer: Result<u32, Refusal>,
    pub header: Header,
    pub records: Records,
    pub part: Part,
}

// The start of the attribute at `index` alone.
pub fn attribute_start(buf: &[u8], index: u64) -> Result<u32, Refusal>
    ensures { result ≡ attribute_start buf.now index }
{
    let answer = ultra_reading::used_length(buf, 2);
    let Ok(used) = answer else {
        return answer;
    };
    if words::load_u32(buf, head::COUNT) as u64 <= index {
        return Err(Refusal::new(refusals::COUNT, used));
    }
    Ok(ultra_stepping::start_of(buf, index as u32) as u32)
}

// Nothing but the refusal that is passed on.
fn unanswered(answer: Result<u32, Refusal>) -> AttributeAnswer
    ensures { result ≡ unanswered answer }
{
    let records = ultra_records::blank();
    let part = lent_buffers::no_part();
    AttributeAnswer {
        answer,
        header: Header {
            kind: 0,
            start: 0,
            size: 0,
        },
        records,
        part,
    }
}

// The attribute at `index`.
pub fn attribute(buf: &[u8], index: u64) -> AttributeAnswer
    ensures { result ≡ attribute_answer buf.now index }
{
    let answer = attribute_start(buf, index);
    let Ok(start) = answer else {
        return unanswered(answer);
    };
    let kind = words::load_u32(buf, start as usize);
    let size = words::load_u32(buf, start as usize + ultra_layout::attribute::SIZE);
    let records = ultra_records::records(buf, start as usize, size, kind);
    let part = crate::part::of_body(buf, start, size, kind);
    AttributeAnswer {
        answer: Ok(start),
        header: Header { kind, start, size },
        records,
        part,
    }
}

// The part that `attribute` names, as a slice of the lent buffer; an empty one where the attribute has none or is refused.
pub fn attribute_part(buf: &[u8], index: u64) -> &[u8]
    ensures { PartHandedBack result buf.entry index }
{
    let answer = attribute(buf, index);
    lent_buffers::slice(buf, answer.part)
}
