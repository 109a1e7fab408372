// The published calls of Handover payloads, each made with what a frame gives and answered by a frame: 26 to 33 of the table in
// crates/call_driver/README.md.
#![tactic(auto)]

mod questions;

use call_frames::{answers, frame, reply};

// Makes call 32; the numbers of the parts are put into `numbers`.
fn write(frame: &[u8], buf: &mut [u8], numbers: &mut [u64], out: &mut [u8]) -> u32 {
    let given = frame::string(frame, 2);
    let n = frame::load_numbers(given, numbers);
    let records = frame::string(frame, 1);
    let run = frame::string(frame, 3);
    let answer = handover_writing::write(buf, records, &numbers[0..n], run);
    answers::plain(out, 32, answer, buf)
}

// Makes call 33, whose output lies where the frame gives it, which is its end.
pub fn export(frame: &mut [u8], buf: &[u8], out: &mut [u8]) -> u32 {
    let start = frame::string_start(frame, 1);
    let load = frame::number(frame, 0);
    let answer = handover_export::export(buf, load, &mut frame[start..]);
    let at = answers::begin_plain(out, 33, answer, 2, buf);
    reply::string(out, at, &frame[start..])
}

// Makes one of the calls 26 to 32.
pub fn make(call: u32, frame: &[u8], buf: &mut [u8], numbers: &mut [u64], out: &mut [u8]) -> u32 {
    match call {
        32 => write(frame, buf, numbers, out),
        _ => questions::make(call, frame::number(frame, 0), buf, out),
    }
}
