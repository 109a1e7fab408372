// Parts of the lines that programs print for answers.
use cases_text::print;
use refusals::Refusal;
use std::io;
use ultra_reading::{Accepted, Cursor, Header};

pub fn refusal(rt: &impl Print, refusal: Refusal) -> io::Result<()> {
    print!(rt; ": refused {} at {}", refusal.number, refusal.offset)
}

pub fn answer(rt: &impl Print, answer: Result<u32, Refusal>) -> io::Result<()> {
    match answer {
        Ok(value) => print!(rt; ": done {value}"),
        Err(r) => refusal(rt, r),
    }
}

// What a call answers, on a line of its own.
pub fn call(rt: &impl Print, label: &[u8], res: Result<u32, Refusal>) -> io::Result<()> {
    print::words(rt, label)?;
    answer(rt, res)?;
    print::words(rt, b"\n")
}

// What reading answers, the same.
pub fn reading(rt: &impl Print, label: &[u8], answer: Result<Accepted, Refusal>) -> io::Result<()> {
    print::words(rt, label)?;
    match answer {
        Ok(Accepted { version, used }) => {
            print!(rt;
                ": version {}.{}, used {used}",
                version.major, version.minor
            )
        }
        Err(r) => refusal(rt, r),
    }?;
    print::words(rt, b"\n")
}

// What a step answers, the same.
pub fn step(
    rt: &impl Print,
    label: &[u8],
    answer: Result<Option<(Header, Cursor)>, Refusal>,
) -> io::Result<()> {
    print::words(rt, label)?;
    match answer {
        Ok(Some((header, next))) => print!(rt;
            ": type {} at {} size {}, next {} at {}",
            header.kind, header.start, header.size, next.index, next.offset
        ),
        Ok(None) => print::words(rt, b": end"),
        Err(r) => refusal(rt, r),
    }?;
    print::words(rt, b"\n")
}

// Where an attribute is, after its answer.
pub fn header(rt: &impl Print, header: Header) -> io::Result<()> {
    println!(rt;
        ", type {} at {} size {}",
        header.kind, header.start, header.size
    )
}
