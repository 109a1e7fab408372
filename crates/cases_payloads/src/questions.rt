// What reading and the questions answer, with the strings that are handed back.
use crate::given;
use cases_shared::show;
use cases_text::print;
use handover_format::Record;
use lent_buffers::Part;
use std::io;

pub fn read(rt: &impl Print, label: &[u8], pairs: [u64; 6]) -> io::Result<()> {
    let buf = given::changed(pairs);
    let numbers = given::changed_numbers(given::numbers(), pairs);
    show::call(
        rt,
        label,
        handover_reading::read(given::part(&buf, 0, numbers[21])),
    )
}

// Where a string is by its part, and the bytes that were handed back.
fn string(rt: &impl Print, before: &[u8], part: Part, bytes: &[u8]) -> io::Result<()> {
    print::words(rt, before)?;
    print!(rt; " at {} length {} \"", part.start, part.length)?;
    print::words(rt, bytes)?;
    print::words(rt, b"\"")
}

pub fn show_agent(rt: &impl Print, label: &[u8], buf: &[u8]) -> io::Result<()> {
    let answer = handover_questions::agent(buf);
    let number = answer.answer;
    print::words(rt, label)?;
    show::answer(rt, number)?;
    print!(rt; ", offset {}", answer.offset)?;
    string(
        rt,
        b", name",
        answer.name,
        handover_questions::agent_name(buf),
    )?;
    print::words(rt, b"\n")
}

fn show_words(rt: &impl Print, words: Record) -> io::Result<()> {
    print!(rt;
        ", tag {}, flags {}, start {}",
        words.tag, words.flags, words.start
    )?;
    println!(rt;
        ", size {}, words {} {}",
        words.size, words.name, words.meta
    )
}

pub fn show_record(rt: &impl Print, label: &[u8], buf: &[u8], index: u64) -> io::Result<()> {
    let answer = handover_questions::record_at(buf, index);
    let number = answer.answer;
    print::words(rt, label)?;
    show::answer(rt, number)?;
    show_words(rt, answer.words)?;
    string(
        rt,
        b"  name",
        answer.name,
        handover_questions::record_name(buf, index),
    )?;
    string(
        rt,
        b", meta",
        answer.meta,
        handover_questions::record_meta(buf, index),
    )?;
    print::words(rt, b"\n")
}

pub fn agent(rt: &impl Print, label: &[u8], pairs: [u64; 6]) -> io::Result<()> {
    let buf = given::changed(pairs);
    show_agent(rt, label, &buf)
}

pub fn record(rt: &impl Print, label: &[u8], pairs: [u64; 6]) -> io::Result<()> {
    let buf = given::changed(pairs);
    let numbers = given::changed_numbers(given::numbers(), pairs);
    show_record(rt, label, &buf, numbers[22])
}
