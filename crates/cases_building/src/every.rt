// A context of every type, built in a buffer of 165s and read back.
use cases_shared::{given, members, show};
use cases_text::print;
use refusals::Refusal;
use std::io;
use ultra_format::ModuleRecord;
use ultra_questions::AttributeAnswer;

fn second_module() -> ModuleRecord {
    ModuleRecord {
        kind: 2,
        name: given::field(b"symbols\0"),
        address: 33554432,
        size: 65537,
    }
}

fn front(rt: &impl Print, buf: &mut [u8; 1024]) -> io::Result<()> {
    show::call(rt, b"every type, begin", ultra_building::begin(buf))?;
    show::call(
        rt,
        b"every type, platform",
        ultra_building::add_platform(buf, given::platform()),
    )?;
    show::call(
        rt,
        b"every type, kernel",
        ultra_building::add_kernel(buf, given::kernel()),
    )?;
    show::call(
        rt,
        b"every type, framebuffer",
        ultra_building::add_framebuffer(buf, given::framebuffer()),
    )
}

fn modules(rt: &impl Print, buf: &mut [u8; 1024]) -> io::Result<()> {
    show::call(
        rt,
        b"every type, module",
        ultra_building::add_module(buf, given::module()),
    )?;
    show::call(
        rt,
        b"every type, second module",
        ultra_building::add_module(buf, second_module()),
    )
}

fn line_and_map(rt: &impl Print, buf: &mut [u8; 1024]) -> io::Result<()> {
    show::call(
        rt,
        b"every type, command line",
        ultra_building::add_command_line(buf, b"root=/x ro"),
    )?;
    show::call(
        rt,
        b"every type, map",
        ultra_building::add_map(
            buf,
            &[1048576, 4096, 11, 4294967296, 12288, 9223372036854775821],
        ),
    )
}

fn found(rt: &impl Print, answer: AttributeAnswer) -> io::Result<()> {
    show::header(rt, answer.header)?;
    members::own(rt, answer.header.kind, answer.records)
}

fn ask(rt: &impl Print, buf: &[u8; 1024], index: u64) -> io::Result<()> {
    let answer = ultra_questions::attribute(buf, index);
    let number = answer.answer;
    print!(rt; "index {index}")?;
    show::answer(rt, number)?;
    match number {
        Ok(_) => found(rt, answer),
        Err(_) => print::words(rt, b"\n"),
    }
}

fn attributes(rt: &impl Print, buf: &[u8; 1024]) -> io::Result<()> {
    (0..8).try_for_each(|index| ask(rt, buf, index))
}

fn line(rt: &impl Print, buf: &[u8; 1024]) -> io::Result<()> {
    let part = ultra_questions::command_line_part(buf);
    print!(rt; "command line at {} length {} \"", part.start, part.length)?;
    print::words(rt, ultra_questions::command_line(buf, b""))?;
    print::words(rt, b"\"\n")
}

fn map(rt: &impl Print, buf: &[u8; 1024]) -> io::Result<()> {
    let mut out = [7u64; 8];
    print::words(rt, b"map copied out")?;
    show::answer(rt, ultra_questions::copy_map(buf, &mut out))?;
    print::words(rt, b", output")?;
    print::numbers(rt, &out)?;
    print::words(rt, b"\n")
}

fn silent(rt: &impl Print, label: &[u8], bytes: &[u8]) -> io::Result<()> {
    print::words(rt, label)?;
    print::numbers(rt, bytes)?;
    print::words(rt, b"\n")
}

fn silent_bytes(rt: &impl Print, buf: &[u8; 1024]) -> io::Result<()> {
    silent(rt, b"silent bytes of the platform", &buf[73..80])?;
    silent(rt, b"silent bytes of the module", &buf[472..476])?;
    silent(rt, b"silent bytes of the second module", &buf[568..572])
}

fn after(rt: &impl Print, buf: &[u8; 1024], blank: &[u8; 1024]) -> io::Result<()> {
    let changed = print::differences_in(buf, blank, 736, 1024);
    println!(rt; "bytes after the context that differ from 165: {changed}")
}

fn read_back(rt: &impl Print, space: &[u8; 1024]) -> io::Result<()> {
    show::reading(rt, b"every type, read", ultra_reading::read(space))?;
    attributes(rt, space)?;
    line(rt, space)?;
    map(rt, space)
}

// Used length 736; types 1, 2, 6, 4, 4, 5 and 3. Answers the buffer.
pub fn all(rt: &impl Print) -> io::Result<[u8; 1024]> {
    let blank = [165u8; 1024];
    let mut space = blank;
    front(rt, &mut space)?;
    modules(rt, &mut space)?;
    line_and_map(rt, &mut space)?;
    read_back(rt, &space)?;
    silent_bytes(rt, &space)?;
    after(rt, &space, &blank)?;
    Ok(space)
}
