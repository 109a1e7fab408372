// The attribute at an index.
use crate::context;
use cases_contexts::build;
use cases_shared::{members, show};
use cases_text::{print, table};
use lent_buffers::Part;
use refusals::Refusal;
use std::io;
use ultra_questions::AttributeAnswer;

// A map's or a command line's part; of other types that there is none, wherever it would lie.
fn part(rt: &impl Print, kind: u32, part: Part, bytes: &[u8]) -> io::Result<()> {
    if kind == 3 || kind == 5 {
        print!(rt; "  part at {} length {}", part.start, part.length)?;
    } else {
        print!(rt; "  part length {}", part.length)?;
    }
    print!(rt; ", bytes handed back {}", bytes.len())?;
    if kind == 3 {
        print::numbers(rt, bytes)?;
    }
    if kind == 5 {
        print::words(rt, b" \"")?;
        print::words(rt, bytes)?;
        print::words(rt, b"\"")?;
    }
    print::words(rt, b"\n")
}

fn found(rt: &impl Print, answer: AttributeAnswer, bytes: &[u8]) -> io::Result<()> {
    let kind = answer.header.kind;
    show::header(rt, answer.header)?;
    members::own(rt, kind, answer.records)?;
    part(rt, kind, answer.part, bytes)
}

fn ask(rt: &impl Print, label: &[u8], buf: &[u8; 1024], index: u64) -> io::Result<()> {
    let answer = ultra_questions::attribute(buf, index);
    let number = answer.answer;
    print::words(rt, label)?;
    show::answer(rt, number)?;
    match number {
        Ok(_) => found(rt, answer, ultra_questions::attribute_part(buf, index)),
        Err(_) => print::words(rt, b"\n"),
    }
}

// The start alone.
fn ask_start(rt: &impl Print, label: &[u8], buf: &[u8; 1024], index: u64) -> io::Result<()> {
    print::words(rt, label)?;
    show::answer(rt, ultra_questions::attribute_start(buf, index))?;
    print::words(rt, b"\n")
}

fn context_of_every_type() -> [u8; 1024] {
    let mut buf = [165u8; 1024];
    context::every_type(&mut buf);
    buf
}

// The index.
fn every(rt: &impl Print, row: &[u8]) -> io::Result<()> {
    let [index] = table::numbers::<1>(row);
    ask(rt, table::label(row), &context_of_every_type(), index)
}

fn every_start(rt: &impl Print, row: &[u8]) -> io::Result<()> {
    let [index] = table::numbers::<1>(row);
    ask_start(rt, table::label(row), &context_of_every_type(), index)
}

pub fn every_type(rt: &impl Print) -> io::Result<()> {
    table::try_rows(
        b"\
        index 0: 0\n\
        index 1: 1\n\
        index 2: 2\n\
        index 3: 3\n\
        index 4: 4\n\
        index 5: 5\n\
        index 6: 6\n\
        index 7, one below the count: 7\n\
        index 8, the count: 8\n\
        index 9: 9\n\
        index 4294967296: 4294967296\n\
        index 4294967303: 4294967303\n\
        index 18446744073709551615: 18446744073709551615\n",
        |row| every(rt, row),
    )?;
    table::try_rows(
        b"\
        start alone of index 0: 0\n\
        start alone of index 4: 4\n\
        start alone of index 7: 7\n\
        start alone of index 8: 8\n\
        start alone of index 4294967296: 4294967296\n",
        |row| every_start(rt, row),
    )
}

// The platform's size. It has a kernel right after it, whose type, size, bases and size in memory are not zero. (Only the byte where one
// of 56 bytes would have its depth is zero: it is the lowest of a base, which is a multiple of 4,096.)
fn platform(rt: &impl Print, row: &[u8]) -> io::Result<()> {
    let [size] = table::numbers::<1>(row);
    let mut buf = [165u8; 1024];
    build::head(&mut buf, 2);
    context::platform(&mut buf, size);
    if size < 256 {
        context::kernel(&mut buf, 8 + size, 336);
    }
    ask(rt, table::label(row), &buf, 0)
}

pub fn platforms(rt: &impl Print) -> io::Result<()> {
    table::try_rows(
        b"\
        platform of 56 bytes: 56\n\
        platform of 64 bytes: 64\n\
        platform of 72 bytes: 72\n\
        platform of 80 bytes: 80\n\
        platform of 88 bytes: 88\n\
        platform of 96 bytes: 96\n",
        |row| platform(rt, row),
    )
}

fn platform_and_kernel(count: u64) -> [u8; 1024] {
    let mut buf = [0u8; 1024];
    build::head(&mut buf, count);
    build::platform_and_kernel(&mut buf, 88);
    buf
}

fn third_of_type_0() -> [u8; 1024] {
    let mut buf = platform_and_kernel(3);
    build::header(&mut buf, 432, 0, 8);
    buf
}

// A third attribute of type 0 is refused, whatever index is asked for.
fn type_zero(rt: &impl Print, row: &[u8]) -> io::Result<()> {
    let [index] = table::numbers::<1>(row);
    ask(rt, table::label(row), &third_of_type_0(), index)
}

fn start_of_type_zero(rt: &impl Print) -> io::Result<()> {
    let buf = third_of_type_0();
    ask_start(rt, b"third of type 0, start alone of index 0", &buf, 0)
}

// The count and the index.
fn count(rt: &impl Print, row: &[u8]) -> io::Result<()> {
    let [count, index] = table::numbers::<2>(row);
    ask(rt, table::label(row), &platform_and_kernel(count), index)
}

pub fn refused(rt: &impl Print) -> io::Result<()> {
    table::try_rows(
        b"\
        third of type 0, index 0: 0\n\
        third of type 0, index 2: 2\n\
        third of type 0, index 3, the count: 3\n\
        third of type 0, index 2^64 - 1: 18446744073709551615\n",
        |row| type_zero(rt, row),
    )?;
    start_of_type_zero(rt)?;
    table::try_rows(
        b"\
        count 1, index 0: 1 0\n\
        count 1, index 1: 1 1\n\
        count 0, index 0: 0 0\n\
        count 1025, index 1024: 1025 1024\n\
        count 1025, index 1025: 1025 1025\n",
        |row| count(rt, row),
    )?;
    ask(rt, b"zeros, index 0", &[0u8; 1024], 0)
}
