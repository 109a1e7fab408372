// Adds to contexts of 1,023 and 1,024 attributes.
use cases_adds::{changed, full, line};
use cases_shared::{given, show};
use std::io;
use ultra_format::FramebufferRecord;

// Answers the buffer.
fn framebuffer(
    rt: &impl Print,
    label: &[u8],
    before: [u8; 8704],
    record: FramebufferRecord,
) -> io::Result<[u8; 8704]> {
    let mut after = before;
    let answer = ultra_building::add_framebuffer(&mut after, record);
    line(rt, label, answer, changed(&before, &after))?;
    Ok(after)
}

fn to_1024(rt: &impl Print, buf: [u8; 8704]) -> io::Result<()> {
    let mut record = given::framebuffer();
    framebuffer(rt, b"framebuffer to 1024 attributes", buf, record)?;
    record.format = 0;
    framebuffer(
        rt,
        b"framebuffer of format 0 to 1024 attributes",
        buf,
        record,
    )?;
    cases_adds::add(rt, b"platform to 1024 attributes", buf, |buf| {
        ultra_building::add_platform(buf, given::platform())
    })
}

fn to_1023(rt: &impl Print, buf: [u8; 8704]) -> io::Result<()> {
    let record = given::framebuffer();
    let after = framebuffer(rt, b"framebuffer to 1023 attributes", buf, record)?;
    show::reading(rt, b"  read", ultra_reading::read(&after))?;
    framebuffer(rt, b"framebuffer to the 1024 that it makes", after, record)?;
    Ok(())
}

pub fn all(rt: &impl Print) -> io::Result<()> {
    let buf = full::almost();
    let one_more = full::full(buf);
    to_1024(rt, one_more)?;
    to_1023(rt, buf)
}
