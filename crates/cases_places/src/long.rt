// Command lines up to the room of a buffer that is longer than 65,536 bytes.
use cases_adds::line;
use cases_shared::given;
use cases_text::print;
use std::io;

fn context(buf: &mut [u8]) {
    let _ = ultra_building::begin(buf);
    let _ = ultra_building::add_platform(buf, given::platform());
    let _ = ultra_building::add_kernel(buf, given::kernel());
}

// Adds the first `length` bytes of the text, and compares the buffers from byte 65,024 on.
fn add(
    rt: &impl Print,
    label: &[u8],
    buf: &mut [u8],
    before: &[u8],
    text: &[u8],
    length: usize,
) -> io::Result<()> {
    let Some(part) = text.get(..length) else {
        return Ok(());
    };
    let answer = ultra_building::add_command_line(buf, part);
    line(
        rt,
        label,
        answer,
        print::differences_in(before, buf, 65024, 66000),
    )
}

fn command_line(rt: &impl Print, label: &[u8], length: usize, last: u8) -> io::Result<()> {
    let mut before = [165u8; 66000];
    context(&mut before);
    let mut buf = before;
    let mut text = [b'a'; 66000];
    text[65999] = last;
    add(rt, label, &mut buf, &before, &text, length)
}

pub fn all(rt: &impl Print) -> io::Result<()> {
    command_line(rt, b"line of 65095 bytes", 65095, b'a')?;
    command_line(rt, b"line of 65096 bytes", 65096, b'a')?;
    command_line(rt, b"line of 66000 bytes, the last 128", 66000, 128)
}
