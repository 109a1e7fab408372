// Payloads written from their reading, read back, and written again from that.
use crate::{given, questions, writing};
use cases_shared::show;
use lent_buffers::Part;
use refusals::Refusal;
use std::io;

// The start and the length of a string, as the numbers `k` and after it.
fn put_part(numbers: &mut [u64; 23], k: usize, part: Part) {
    if k < 18 {
        numbers[k] = part.start as u64;
        numbers[k + 1] = part.length as u64;
    }
}

// The numbers of a payload of four records by its reading, for a run that is the payload itself.
fn numbers_of(buf: &[u8; 1024]) -> [u64; 23] {
    let mut numbers = given::numbers();
    put_part(&mut numbers, 0, handover_questions::agent(buf).name);
    for index in 0..4 {
        let record = handover_questions::record_at(buf, index as u64);
        put_part(&mut numbers, 4 * index + 2, record.name);
        put_part(&mut numbers, 4 * index + 4, record.meta);
    }
    numbers
}

// Written from its reading.
fn write(to: &mut [u8; 1024], from: &[u8; 1024]) -> Result<u32, Refusal> {
    let numbers = numbers_of(from);
    given::write(to, from, numbers)
}

fn show_copy(rt: &impl Print, buf: &[u8; 1024]) -> io::Result<()> {
    show::call(rt, b"  read back", handover_reading::read(buf))?;
    questions::show_agent(rt, b"  agent", buf)?;
    questions::show_record(rt, b"  record 1", buf, 1)?;
    questions::show_record(rt, b"  record 2", buf, 2)
}

fn compare(
    rt: &impl Print,
    answer: Result<u32, Refusal>,
    left: &[u8; 1024],
    right: &[u8; 1024],
) -> io::Result<()> {
    writing::line(
        rt,
        b"  written again",
        answer,
        b", bytes that differ ",
        left,
        right,
    )
}

// In buffers of 90s.
pub fn copy(rt: &impl Print, label: &[u8], pairs: [u64; 6]) -> io::Result<()> {
    let from = given::changed(pairs);
    let mut first = [90u8; 1024];
    show::call(rt, label, write(&mut first, &from))?;
    show_copy(rt, &first)?;
    let mut second = [90u8; 1024];
    let answer = write(&mut second, &first);
    compare(rt, answer, &first, &second)
}
