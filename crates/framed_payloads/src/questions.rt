// The calls that change nothing.
use call_frames::answers;

fn agent(buf: &[u8], out: &mut [u8]) -> u32 {
    let agent = handover_questions::agent(buf);
    let answer = agent.answer;
    let name = agent.name;
    answers::numbers(
        out,
        27,
        &[
            answers::number(answer),
            answers::value(answer),
            agent.offset as u64,
            name.start as u64,
            name.length as u64,
        ],
        buf,
    )
}

fn agent_name(buf: &[u8], out: &mut [u8]) -> u32 {
    let agent = handover_questions::agent(buf);
    let name = agent.name;
    let slice = handover_questions::agent_name(buf);
    answers::part(out, 28, name.start, name.length, buf, slice)
}

fn record_at(index: u64, buf: &[u8], out: &mut [u8]) -> u32 {
    let record = handover_questions::record_at(buf, index);
    let answer = record.answer;
    let words = record.words;
    let name = record.name;
    let meta = record.meta;
    answers::numbers(
        out,
        29,
        &[
            answers::number(answer),
            answers::value(answer),
            words.tag as u64,
            words.flags as u64,
            words.start,
            words.size,
            words.name as u64,
            words.meta as u64,
            name.start as u64,
            name.length as u64,
            meta.start as u64,
            meta.length as u64,
        ],
        buf,
    )
}

fn record_name(index: u64, buf: &[u8], out: &mut [u8]) -> u32 {
    let record = handover_questions::record_at(buf, index);
    let name = record.name;
    let slice = handover_questions::record_name(buf, index);
    answers::part(out, 30, name.start, name.length, buf, slice)
}

fn record_meta(index: u64, buf: &[u8], out: &mut [u8]) -> u32 {
    let record = handover_questions::record_at(buf, index);
    let meta = record.meta;
    let slice = handover_questions::record_meta(buf, index);
    answers::part(out, 31, meta.start, meta.length, buf, slice)
}

// Makes one of the calls 26 to 31; `index` is of a record.
pub fn make(call: u32, index: u64, buf: &[u8], out: &mut [u8]) -> u32 {
    match call {
        26 => answers::plain(out, 26, handover_reading::read(buf), buf),
        27 => agent(buf, out),
        28 => agent_name(buf, out),
        29 => record_at(index, buf, out),
        30 => record_name(index, buf, out),
        _ => record_meta(index, buf, out),
    }
}
