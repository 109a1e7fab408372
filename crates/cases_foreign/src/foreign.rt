// Contexts by hand that no add writes.
use cases_contexts::build;
use cases_shared::{given, show};
use cases_text::print;
use std::io;

// How many bytes changed from `start` up to `end`, on a line of its own.
fn changed(
    rt: &impl Print,
    label: &[u8],
    before: &[u8; 1024],
    after: &[u8; 1024],
    start: usize,
    end: usize,
) -> io::Result<()> {
    let changed = print::differences_in(before, after, start, end);
    print::words(rt, label)?;
    println!(rt; "{changed}")
}

// A platform without late members, alone.
fn short_platform() -> [u8; 1024] {
    let mut buf = [0u8; 1024];
    build::head(&mut buf, 1);
    build::platform_and_kernel(&mut buf, 56);
    buf
}

fn after_a_short_platform(rt: &impl Print) -> io::Result<()> {
    let before = short_platform();
    let mut after = before;
    print::words(rt, b"kernel after a platform of 56 bytes")?;
    show::answer(rt, ultra_building::add_kernel(&mut after, given::kernel()))?;
    changed(
        rt,
        b"\n  bytes of the platform that changed: ",
        &before,
        &after,
        8,
        64,
    )?;
    show::reading(
        rt,
        b"kernel after a platform of 56 bytes, read",
        ultra_reading::read(&after),
    )
}

// Version 7.9, a platform of 96 bytes and a kernel of 344 with silent bytes that are not zero, and an attribute of type 7.
fn context() -> [u8; 1024] {
    let mut buf = [0u8; 1024];
    build::put_bytes(&mut buf, 0, b"\x07\x09\xa5\xa5\x03\x00\x00\x00");
    build::platform_and_kernel(&mut buf, 96);
    build::put_bytes(&mut buf, 72, b"\x05\xa5\xa5\xa5\xa5\xa5\xa5\xa5");
    build::put(&mut buf, 96, 8, 0xa5a5_a5a5_a5a5_a5a5);
    build::header(&mut buf, 104, 2, 344);
    build::put_bytes(&mut buf, 184, b"/\0\xa5\xa5\xa5\xa5\xa5\xa5");
    build::put(&mut buf, 440, 8, 0xa5a5_a5a5_a5a5_a5a5);
    build::header(&mut buf, 448, 7, 16);
    build::put(&mut buf, 456, 8, 0xa5a5_a5a5_a5a5_a5a5);
    buf
}

fn compare(rt: &impl Print, before: &[u8; 1024], after: &[u8; 1024]) -> io::Result<()> {
    changed(
        rt,
        b"\n  bytes of the attributes before that changed: ",
        before,
        after,
        8,
        464,
    )?;
    changed(
        rt,
        b"  bytes after that changed: ",
        before,
        after,
        560,
        1024,
    )
}

fn head(rt: &impl Print, buf: &[u8; 1024]) -> io::Result<()> {
    print::words(rt, b"\n  head")?;
    print::numbers(rt, &buf[..8])
}

fn kept(rt: &impl Print) -> io::Result<()> {
    let before = context();
    let mut after = before;
    print::words(rt, b"module to a foreign context")?;
    show::answer(rt, ultra_building::add_module(&mut after, given::module()))?;
    head(rt, &after)?;
    compare(rt, &before, &after)?;
    show::reading(
        rt,
        b"module to a foreign context, read",
        ultra_reading::read(&after),
    )
}

pub fn all(rt: &impl Print) -> io::Result<()> {
    after_a_short_platform(rt)?;
    kept(rt)
}
