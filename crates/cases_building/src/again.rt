// What was read is added again, to a second buffer.
use cases_shared::show;
use cases_text::print;
use refusals::Refusal;
use std::io;
use ultra_format::Records;

fn records(from: &[u8; 1024], index: u64) -> Records {
    ultra_questions::attribute(from, index).records
}

fn platform(from: &[u8; 1024], to: &mut [u8]) -> Result<u32, Refusal> {
    ultra_building::add_platform(to, records(from, 0).platform)
}

fn kernel(from: &[u8; 1024], to: &mut [u8]) -> Result<u32, Refusal> {
    ultra_building::add_kernel(to, records(from, 1).kernel)
}

fn framebuffer(from: &[u8; 1024], to: &mut [u8]) -> Result<u32, Refusal> {
    ultra_building::add_framebuffer(to, records(from, 2).framebuffer)
}

fn module(from: &[u8; 1024], index: u64, to: &mut [u8]) -> Result<u32, Refusal> {
    ultra_building::add_module(to, records(from, index).module)
}

fn map(from: &[u8; 1024], to: &mut [u8]) -> Result<u32, Refusal> {
    let mut numbers = [7u64; 6];
    let _ = ultra_questions::copy_map(from, &mut numbers);
    ultra_building::add_map(to, &numbers)
}

fn records_of(from: &[u8; 1024], to: &mut [u8; 1024]) {
    let _ = platform(from, to);
    let _ = kernel(from, to);
    let _ = framebuffer(from, to);
    let _ = module(from, 3, to);
    let _ = module(from, 4, to);
}

fn all_of(from: &[u8; 1024], to: &mut [u8; 1024]) -> Result<u32, Refusal> {
    let _ = ultra_building::begin(to);
    records_of(from, to);
    let _ = ultra_building::add_command_line(to, ultra_questions::command_line(from, b""));
    map(from, to)
}

// The contexts, and what is after the second.
fn compare(
    rt: &impl Print,
    first: &[u8; 1024],
    second: &[u8; 1024],
    blank: &[u8; 1024],
) -> io::Result<()> {
    let differ = print::differences_in(first, second, 0, 736);
    println!(rt; "bytes of the two contexts that differ: {differ}")?;
    let after = print::differences_in(second, blank, 736, 1024);
    println!(rt; "bytes after the second that differ from 90: {after}")
}

// The context of every type, once more in a buffer of 90s.
pub fn all(rt: &impl Print, first: [u8; 1024]) -> io::Result<()> {
    let blank = [90u8; 1024];
    let mut second = blank;
    show::call(rt, b"read and added again", all_of(&first, &mut second))?;
    compare(rt, &first, &second, &blank)
}
