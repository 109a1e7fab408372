// What exporting answers, and the payload as R-2's reader reads it.
use cases_text::print;
use handover_format::Record;
use refusals::Refusal;
use std::io;

// What a byte of the output is before.
const BEFORE: u8 = 165;

// How many bytes are not as before.
fn changes(out: &[u8]) -> u64 {
    out.iter().filter(|byte| **byte != BEFORE).count() as u64
}

// The bytes from `start` on.
fn after(out: &[u8], start: usize) -> &[u8] {
    out.get(start..).unwrap_or(b"")
}

fn tag(rt: &impl Print, tag: u32) -> io::Result<()> {
    match tag {
        handover_format::HANDOVER_FREE => print::words(rt, b"FREE"),
        handover_format::HANDOVER_SELF => print::words(rt, b"SELF"),
        handover_format::HANDOVER_STACK => print::words(rt, b"STACK"),
        handover_format::HANDOVER_KERNEL => print::words(rt, b"KERNEL"),
        handover_format::HANDOVER_LOADER => print::words(rt, b"LOADER"),
        handover_format::HANDOVER_FILE => print::words(rt, b"FILE"),
        handover_format::HANDOVER_RSDP => print::words(rt, b"RSDP"),
        handover_format::HANDOVER_CMDLINE => print::words(rt, b"CMDLINE"),
        handover_format::HANDOVER_RESERVED => print::words(rt, b"RESERVED"),
        handover_format::HANDOVER_END => print::words(rt, b"END"),
        _ => print!(rt; "tag {tag}"),
    }
}

fn words(rt: &impl Print, given: Record) -> io::Result<()> {
    print::words(rt, b"  ")?;
    tag(rt, given.tag)?;
    print!(rt; " {}, {} bytes; ", given.start, given.size)?;
    print!(rt;
        "flags {}, words {} {}",
        given.flags, given.name, given.meta
    )
}

// A record, with the strings that it names; answers whether there was one.
fn record(rt: &impl Print, payload: &[u8], index: u64) -> io::Result<bool> {
    let asked = handover_questions::record_at(payload, index);
    let answer = asked.answer;
    let Ok(_) = answer else {
        return Ok(false);
    };
    words(rt, asked.words)?;
    print::words(rt, b" \"")?;
    print::words(rt, handover_questions::record_name(payload, index))?;
    print::words(rt, b"\" \"")?;
    print::words(rt, handover_questions::record_meta(payload, index))?;
    print::words(rt, b"\"\n")?;
    Ok(true)
}

// The first `most` records.
fn records(rt: &impl Print, payload: &[u8], most: u64) -> io::Result<()> {
    for i in 0..most {
        if !record(rt, payload, i)? {
            return Ok(());
        }
    }
    Ok(())
}

fn read_back(rt: &impl Print, payload: &[u8]) -> io::Result<()> {
    match handover_reading::read(payload) {
        Ok(size) => print!(rt; ", read {size}"),
        Err(r) => print!(rt; ", read refused {} at {}", r.number, r.offset),
    }?;
    print::words(rt, b", agent \"")?;
    print::words(rt, handover_questions::agent_name(payload))?;
    print::words(rt, b"\"\n")
}

fn show(rt: &impl Print, context: &[u8], load: u64, out: &mut [u8], most: u64) -> io::Result<()> {
    let answer = handover_export::export(context, load, out);
    match answer {
        Err(r) => println!(rt;
            ": refused {} at {}, {} bytes changed",
            r.number,
            r.offset,
            changes(out)
        ),
        Ok(size) => {
            print!(rt;
                ": {size} bytes, {} changed after them",
                changes(after(out, size as usize))
            )?;
            read_back(rt, out)?;
            records(rt, out, most)
        }
    }
}

// The first `length` bytes of `space` are lent.
fn lend(
    rt: &impl Print,
    context: &[u8],
    load: u64,
    space: &mut [u8],
    length: usize,
    most: u64,
) -> io::Result<()> {
    match space.get_mut(..length) {
        Some(out) => show(rt, context, load, out, most),
        None => Ok(()),
    }
}

// The context exported for `load` into an output of `length` bytes, and up to `most` records of the payload.
pub fn export(
    rt: &impl Print,
    label: &[u8],
    context: &[u8],
    load: u64,
    length: u64,
    most: u64,
) -> io::Result<()> {
    let mut space = [BEFORE; 70000];
    print::words(rt, label)?;
    lend(rt, context, load, &mut space, length as usize, most)
}
