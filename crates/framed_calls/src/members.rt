// The adds of members given one by one.
use crate::given;
use call_frames::{answers, frame};
use refusals::Refusal;
use ultra_building::members;

fn platform(frame: &[u8], buf: &mut [u8]) -> Result<u32, Refusal> {
    members::add_platform(
        buf,
        frame::number(frame, 4) != 0,
        given::u32_at(frame, 0),
        given::u16_at(frame, 1),
        given::u16_at(frame, 2),
        frame::string(frame, 1),
        frame::number(frame, 3),
        frame::number(frame, 5),
        given::u8_at(frame, 6),
        frame::number(frame, 7),
        frame::number(frame, 8),
    )
}

fn kernel(frame: &[u8], buf: &mut [u8]) -> Result<u32, Refusal> {
    members::add_kernel(
        buf,
        frame::number(frame, 0),
        frame::number(frame, 1),
        frame::number(frame, 2),
        frame::number(frame, 3),
        frame::string(frame, 1),
        frame::string(frame, 2),
        given::u32_at(frame, 4),
        given::u32_at(frame, 5),
        frame::string(frame, 3),
    )
}

fn module(frame: &[u8], buf: &mut [u8]) -> Result<u32, Refusal> {
    members::add_module(
        buf,
        given::u32_at(frame, 0),
        frame::string(frame, 1),
        frame::number(frame, 1),
        frame::number(frame, 2),
    )
}

fn add(call: u32, frame: &[u8], buf: &mut [u8]) -> Result<u32, Refusal> {
    match call {
        19 => platform(frame, buf),
        20 => kernel(frame, buf),
        21 => members::add_map(buf, frame::string(frame, 1)),
        _ => module(frame, buf),
    }
}

// Makes one of the calls 19 to 22.
pub fn make(call: u32, frame: &[u8], buf: &mut [u8], out: &mut [u8]) -> u32 {
    let answer = add(call, frame, buf);
    answers::plain(out, call, answer, buf)
}
