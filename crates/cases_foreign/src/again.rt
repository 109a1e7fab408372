// The platform of a context by hand is read, and added in a buffer of 90s.
use cases_contexts::build;
use cases_shared::show;
use cases_text::print;
use refusals::Refusal;
use std::io;

fn add(from: &[u8; 1024], to: &mut [u8]) -> Result<u32, Refusal> {
    let answer = ultra_questions::attribute(from, 0);
    ultra_building::add_platform(to, answer.records.platform)
}

fn platform_of(rt: &impl Print, label: &[u8], from: &[u8; 1024]) -> io::Result<()> {
    let mut to = [90u8; 112];
    let _ = ultra_building::begin(&mut to);
    print::words(rt, label)?;
    show::answer(rt, add(from, &mut to))?;
    print::words(rt, b", bytes")?;
    print::rows(rt, &to)?;
    print::words(rt, b"\n")
}

// A platform of 96 bytes, with silent bytes that are not zero.
fn longer(rt: &impl Print) -> io::Result<()> {
    let mut space = [0u8; 1024];
    build::head(&mut space, 2);
    build::platform_and_kernel(&mut space, 96);
    build::put(&mut space, 20, 2, 1);
    build::put(&mut space, 22, 2, 4);
    build::put_bytes(&mut space, 24, b"frost\0\xa5\xa5");
    build::put_bytes(&mut space, 72, b"\x05\xa5\xa5\xa5\xa5\xa5\xa5\xa5");
    build::put(&mut space, 96, 8, 0xa5a5_a5a5_a5a5_a5a5);
    platform_of(rt, b"platform of 96 bytes, read and added again", &space)
}

// A platform without late members.
fn shorter(rt: &impl Print) -> io::Result<()> {
    let mut space = [0u8; 1024];
    build::head(&mut space, 2);
    build::platform_and_kernel(&mut space, 56);
    platform_of(rt, b"platform of 56 bytes, read and added again", &space)
}

pub fn all(rt: &impl Print) -> io::Result<()> {
    longer(rt)?;
    shorter(rt)
}
