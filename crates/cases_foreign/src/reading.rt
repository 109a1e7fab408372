// What reading refuses is refused so when adding; a count below 2 is not.
use cases_adds::context;
use cases_contexts::build;
use cases_shared::given;
use std::io;

// A framebuffer, added to a platform and a kernel with one byte changed.
fn framebuffer(rt: &impl Print, label: &[u8], at: usize, byte: u8) -> io::Result<()> {
    let mut buf = context::kernel();
    build::put_byte(&mut buf, at, byte);
    cases_adds::add(rt, label, buf, |buf| {
        ultra_building::add_framebuffer(buf, given::framebuffer())
    })
}

fn counts(rt: &impl Print) -> io::Result<()> {
    let mut buf = context::kernel();
    build::put(&mut buf, 4, 4, 1025);
    cases_adds::add(rt, b"framebuffer to a count of 1025", buf, |buf| {
        ultra_building::add_framebuffer(buf, given::framebuffer())
    })?;
    build::put_byte(&mut buf, 0, 0);
    cases_adds::add(
        rt,
        b"framebuffer to major 0 and a count of 1025",
        buf,
        |buf| { ultra_building::add_framebuffer(buf, given::framebuffer()) },
    )
}

fn attributes(rt: &impl Print) -> io::Result<()> {
    framebuffer(rt, b"framebuffer to a count of 3", 4, 3)?;
    framebuffer(rt, b"framebuffer to a platform of type 0", 16, 0)?;
    framebuffer(
        rt,
        b"framebuffer to a platform with byte 128 in its name",
        24,
        128,
    )?;
    framebuffer(rt, b"framebuffer to a kernel of partition type 0", 128, 0)
}

// What is added stands there already, but is not counted.
fn few(rt: &impl Print) -> io::Result<()> {
    let mut buf = context::kernel();
    build::put_byte(&mut buf, 4, 0);
    cases_adds::add(rt, b"platform to a count of 0", buf, |buf| {
        ultra_building::add_platform(buf, given::platform())
    })?;
    build::put_byte(&mut buf, 4, 1);
    cases_adds::add(rt, b"kernel to a count of 1", buf, |buf| {
        ultra_building::add_kernel(buf, given::kernel())
    })?;
    build::put_byte(&mut buf, 8, 2);
    cases_adds::add(
        rt,
        b"kernel to a count of 1, the first a kernel",
        buf,
        |buf| { ultra_building::add_kernel(buf, given::kernel()) },
    )
}

fn before_the_record(rt: &impl Print) -> io::Result<()> {
    let mut buf = context::begun();
    build::put_byte(&mut buf, 0, 0);
    let mut record = given::platform();
    record.kind = 0;
    cases_adds::add(rt, b"platform of type 0 to major 0", buf, |buf| {
        ultra_building::add_platform(buf, record)
    })
}

pub fn all(rt: &impl Print) -> io::Result<()> {
    framebuffer(rt, b"framebuffer to major 0", 0, 0)?;
    counts(rt)?;
    attributes(rt)?;
    few(rt)?;
    before_the_record(rt)
}
