// What writing answers, and what it does to a buffer of 165s.
use crate::given;
use cases_shared::show;
use cases_text::print;
use refusals::Refusal;
use std::io;

// How many bytes of the two differ, after the answer.
pub fn line(
    rt: &impl Print,
    label: &[u8],
    answer: Result<u32, Refusal>,
    form: &[u8],
    left: &[u8],
    right: &[u8],
) -> io::Result<()> {
    print::words(rt, label)?;
    show::answer(rt, answer)?;
    print::words(rt, form)?;
    println!(rt; "{}", print::differences_in(left, right, 0, left.len()))
}

// As many bytes change as the payload has, or none.
pub fn write(rt: &impl Print, label: &[u8], pairs: [u64; 6]) -> io::Result<()> {
    let from = given::changed(pairs);
    let before = [165u8; 1024];
    let mut after = before;
    let answer = given::write(
        &mut after,
        &from,
        given::changed_numbers(given::numbers(), pairs),
    );
    line(rt, label, answer, b", bytes changed ", &before, &after)
}

// What is lent is in the written form already, with 165s after it: only offsets that are set can differ.
pub fn same(rt: &impl Print, label: &[u8], pairs: [u64; 6]) -> io::Result<()> {
    let from = given::changed(pairs);
    let mut after = [165u8; 1024];
    let answer = given::write(&mut after, &from, given::numbers());
    line(
        rt,
        label,
        answer,
        b", bytes unlike those lent ",
        &from,
        &after,
    )
}

fn show_bytes(
    rt: &impl Print,
    label: &[u8],
    answer: Result<u32, Refusal>,
    buf: &[u8; 1024],
) -> io::Result<()> {
    print::words(rt, label)?;
    show::answer(rt, answer)?;
    print::rows(rt, given::part(buf, 0, 176))?;
    print::words(rt, b"\n")
}

// The bytes themselves, in a buffer of 90s.
pub fn bytes(rt: &impl Print, label: &[u8], pairs: [u64; 6]) -> io::Result<()> {
    let from = given::changed(pairs);
    let mut after = [90u8; 1024];
    let answer = given::write(&mut after, &from, given::numbers());
    show_bytes(rt, label, answer, &after)
}
