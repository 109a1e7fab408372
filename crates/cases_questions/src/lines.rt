// The command line.
use cases_contexts::build;
use cases_text::print;
use std::io;

// With an empty text of the board, as the recovery image asks.
fn line(rt: &impl Print, label: &[u8], buf: &[u8; 1024]) -> io::Result<()> {
    let part = ultra_questions::command_line_part(buf);
    let text = ultra_questions::command_line(buf, b"");
    print::words(rt, label)?;
    print!(rt;
        ": part at {} length {}, bytes handed back {} \"",
        part.start,
        part.length,
        text.len()
    )?;
    print::words(rt, text)?;
    print::words(rt, b"\"\n")
}

// A context with an empty command line of 32 bytes at 432; after it an attribute of type 0, which a count of 4 takes in.
fn context(buf: &mut [u8; 1024]) {
    build::head(buf, 3);
    build::platform_and_kernel(buf, 88);
    build::header(buf, 432, 5, 32);
    build::header(buf, 464, 0, 8);
}

// The same text in a context, past the count and in a refused buffer.
fn counts(rt: &impl Print) -> io::Result<()> {
    let mut space = [0u8; 1024];
    context(&mut space);
    build::put_bytes(&mut space, 440, b"quiet splash");
    line(rt, b"text", &space)?;
    build::head(&mut space, 2);
    line(rt, b"line past the count", &space)?;
    build::head(&mut space, 4);
    line(rt, b"fourth of type 0", &space)
}

// Closed by the field's last byte, and by no byte of the field.
fn full(rt: &impl Print) -> io::Result<()> {
    let mut space = [0u8; 1024];
    context(&mut space);
    build::put_bytes(&mut space, 440, b"quiet splash, and more.");
    line(rt, b"text up to its last byte", &space)?;
    build::put_byte(&mut space, 463, b'.');
    line(rt, b"text that is not closed", &space)
}

fn junk_after(rt: &impl Print) -> io::Result<()> {
    let mut space = [0u8; 1024];
    context(&mut space);
    line(rt, b"empty text", &space)?;
    build::put(&mut space, 448, 8, 0xa5a5_a5a5_a5a5_a5a5);
    build::put(&mut space, 456, 8, 0xa5a5_a5a5_a5a5_a5a5);
    build::put_bytes(&mut space, 440, b"\0unheard");
    line(rt, b"empty text, junk after", &space)?;
    build::put_bytes(&mut space, 440, b"ro\0rw\0\xa5\xa5");
    line(rt, b"text, junk after", &space)
}

// A command line after two attributes of type 7 and a map of no ranges.
fn after_others(rt: &impl Print) -> io::Result<()> {
    let mut space = [0u8; 1024];
    build::head(&mut space, 6);
    build::platform_and_kernel(&mut space, 88);
    build::header(&mut space, 432, 7, 16);
    build::header(&mut space, 448, 7, 8);
    build::header(&mut space, 456, 3, 8);
    build::header(&mut space, 464, 5, 16);
    build::put_bytes(&mut space, 472, b"1234567\0");
    line(rt, b"line after others", &space)
}

// With a text of the board; every byte that is handed back is printed, zeros too.
fn line_or<'a>(
    rt: &impl Print,
    label: &[u8],
    given: &[u8],
    buf: &'a [u8; 1024],
    board: &'a [u8],
) -> io::Result<()> {
    let part = ultra_questions::command_line_part(buf);
    let text = ultra_questions::command_line(buf, board);
    print::words(rt, label)?;
    print::words(rt, given)?;
    print!(rt;
        ": part at {} length {}, {} bytes handed back",
        part.start,
        part.length,
        text.len()
    )?;
    print::numbers(rt, text)?;
    print::words(rt, b"\n")
}

fn with_boards(rt: &impl Print, label: &[u8], buf: &[u8; 1024]) -> io::Result<()> {
    line_or(rt, label, b", board has a text", buf, b"tty")?;
    line_or(rt, label, b", board has an empty text", buf, b"")?;
    line_or(rt, label, b", board has zero bytes", buf, b"\0a\0")?;
    line_or(rt, label, b", board has no ASCII", buf, b"\x80\xff")?;
    line_or(
        rt,
        label,
        b", board has the line and its zero",
        buf,
        b"ro\0",
    )
}

// A line, an empty one, none, and one in a refused buffer.
fn boards(rt: &impl Print) -> io::Result<()> {
    let mut space = [0u8; 1024];
    context(&mut space);
    build::put_bytes(&mut space, 440, b"ro");
    with_boards(rt, b"line", &space)?;
    build::head(&mut space, 4);
    with_boards(rt, b"line of a refused context", &space)?;
    build::head(&mut space, 2);
    with_boards(rt, b"no line", &space)?;
    build::head(&mut space, 3);
    build::put_byte(&mut space, 440, 0);
    with_boards(rt, b"empty line", &space)
}

pub fn all(rt: &impl Print) -> io::Result<()> {
    counts(rt)?;
    full(rt)?;
    junk_after(rt)?;
    after_others(rt)?;
    boards(rt)
}
