// The calls that are lent an output besides the buffer. The output lies where the frame gives it, which is its end.
use call_frames::{answers, frame, reply};
use refusals::Refusal;

// Makes call 7, whose output is numbers.
pub fn copy_map(frame: &[u8], buf: &[u8], numbers: &mut [u64], out: &mut [u8]) -> u32 {
    let n = frame::load_numbers(frame::string(frame, 1), numbers);
    let answer = ultra_questions::copy_map(buf, &mut numbers[0..n]);
    let at = answers::begin_plain(out, 7, answer, 2, buf);
    reply::numbers_string(out, at, &numbers[0..n])
}

fn fill(call: u32, buf: &[u8], lent: &mut [u8]) -> Result<u32, Refusal> {
    match call {
        8 => ultra_questions::copy_map_bytes(buf, lent),
        _ => ultra_listing::list(buf, lent),
    }
}

// Makes one of the calls 8 and 23, whose output is bytes.
pub fn bytes(call: u32, frame: &mut [u8], buf: &[u8], out: &mut [u8]) -> u32 {
    let start = frame::string_start(frame, 1);
    let answer = fill(call, buf, &mut frame[start..]);
    let at = answers::begin_plain(out, call, answer, 2, buf);
    reply::string(out, at, &frame[start..])
}
