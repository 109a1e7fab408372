// The calls that change nothing, and hand back numbers or a part of what they are lent.
use call_frames::{answers, frame, reply};
use ultra_reading::Cursor;

fn read(buf: &[u8], out: &mut [u8]) -> u32 {
    let reading = ultra_reading::read(buf);
    match reading {
        Ok(accepted) => answers::numbers(
            out,
            1,
            &[
                0,
                accepted.used as u64,
                accepted.version.major as u64,
                accepted.version.minor as u64,
            ],
            buf,
        ),
        Err(refusal) => answers::numbers(
            out,
            1,
            &[refusal.number as u64, refusal.offset as u64, 0, 0],
            buf,
        ),
    }
}

fn first(out: &mut [u8]) -> u32 {
    let cursor = Cursor::first();
    let at = reply::head(out, 2, 4, 0);
    reply::numbers(out, at, &[0, 0, cursor.index as u64, cursor.offset as u64])
}

fn step(frame: &[u8], buf: &[u8], out: &mut [u8]) -> u32 {
    let cursor = Cursor {
        index: crate::given::u32_at(frame, 0),
        offset: crate::given::u32_at(frame, 1),
    };
    let step = cursor.step(buf);
    match step {
        Ok(Some((header, next))) => answers::numbers(
            out,
            3,
            &[
                0,
                next.offset as u64,
                1,
                header.kind as u64,
                header.start as u64,
                header.size as u64,
                next.index as u64,
                next.offset as u64,
            ],
            buf,
        ),
        Ok(None) => answers::numbers(out, 3, &[0, 0, 0, 0, 0, 0, 0, 0], buf),
        Err(refusal) => answers::numbers(
            out,
            3,
            &[
                refusal.number as u64,
                refusal.offset as u64,
                0,
                0,
                0,
                0,
                0,
                0,
            ],
            buf,
        ),
    }
}

fn attribute_part(index: u64, buf: &[u8], out: &mut [u8]) -> u32 {
    let answer = ultra_questions::attribute(buf, index);
    let part = answer.part;
    let bytes = ultra_questions::attribute_part(buf, index);
    answers::part(out, 6, part.start, part.length, buf, bytes)
}

fn command_line<'a>(board: &'a [u8], buf: &'a [u8], out: &mut [u8]) -> u32 {
    let part = ultra_questions::command_line_part(buf);
    let text = ultra_questions::command_line(buf, board);
    answers::part(out, 9, part.start, part.length, buf, text)
}

fn command_line_part(buf: &[u8], out: &mut [u8]) -> u32 {
    let part = ultra_questions::command_line_part(buf);
    answers::numbers(out, 10, &[0, 0, part.start as u64, part.length as u64], buf)
}

fn listing_length(buf: &[u8], out: &mut [u8]) -> u32 {
    let length = ultra_listing::listing_length(buf);
    answers::numbers(out, 24, &[0, length as u64], buf)
}

// Makes one of the calls 1 to 6, 9 to 11 and 24.
pub fn make<'a>(call: u32, frame: &'a [u8], buf: &'a [u8], out: &mut [u8]) -> u32 {
    let given = frame::number(frame, 0);
    match call {
        1 => read(buf, out),
        2 => first(out),
        3 => step(frame, buf, out),
        4 => crate::attribute::make(given, buf, out),
        5 => answers::plain(out, 5, ultra_questions::attribute_start(buf, given), buf),
        6 => attribute_part(given, buf, out),
        9 => command_line(frame::string(frame, 1), buf, out),
        10 => command_line_part(buf, out),
        11 => answers::plain(out, 11, ultra_questions::module_holding(buf, given), buf),
        _ => listing_length(buf, out),
    }
}
