// The calls by their numbers.
ghost use Rattle.std.specs.Prelude.{◌≤◌, length};

use crate::{given, modules};
use call_frames::frame;

// The answer to a frame that is no call.
pub const MALFORMED: u32 = 4294967295;

// How many numbers a call takes; none for what is no call.
fn numbers_of(call: u32) -> Option<u32> {
    match call {
        1 | 2 | 7..=10 | 12 | 15 | 17 | 21 | 23..=28 | 32 => Some(0),
        4..=6 | 11 | 29..=31 | 33 => Some(1),
        3 => Some(2),
        16 | 22 => Some(3),
        14 | 18 | 20 => Some(6),
        13 | 19 => Some(9),
        _ => None,
    }
}

// How many strings it takes, the buffer among them.
fn strings_of(call: u32) -> Option<u32> {
    match call {
        2 => Some(0),
        1 | 3..=6 | 10..=12 | 18 | 24 | 26..=31 => Some(1),
        7..=9 | 13 | 15..=17 | 19 | 21..=23 | 25 | 33 => Some(2),
        14 | 20 | 32 => Some(4),
        _ => None,
    }
}

fn call_of(frame: &[u8]) -> u32 {
    if frame.len() < frame::HEAD {
        return 0;
    }
    words::load_u32(frame, 0)
}

// How many numbers of 8 bytes the string at `index` has whole.
fn numbers_in(frame: &[u8], index: u32) -> usize {
    let given = frame::string(frame, index);
    given.len() / 8
}

// Whether a string of numbers or of modules has no more than there may be.
fn fits(call: u32, frame: &[u8], numbers: usize) -> bool {
    match call {
        7 | 15 => numbers_in(frame, 1) <= numbers,
        25 => modules::count(frame::string(frame, 1)) <= modules::MOST,
        32 => numbers_in(frame, 2) <= numbers,
        _ => true,
    }
}

// Whether the frame is a call, its buffer has no more than `bytes`, and a string of numbers no more than `numbers`.
pub fn suits(frame: &[u8], bytes: usize, numbers: usize) -> bool {
    let call = call_of(frame);
    let (Some(takes), Some(strings)) = (numbers_of(call), strings_of(call)) else {
        return false;
    };
    frame::well_formed(frame, takes, strings)
        && frame::string(frame, 0).len() <= bytes
        && fits(call, frame, numbers)
}

// Puts the buffer that the frame gives in place, and answers how long it is; where it gives none, the one that is there stays.
pub fn load(frame: &[u8], buffer: &mut [u8], held: usize) -> usize
    ensures { result ≤ length buffer.new }
{
    if strings_of(call_of(frame)) == Some(0) || frame::is_kept(frame) {
        return held.min(buffer.len());
    }
    given::fill(buffer, frame::string(frame, 0))
}

// Makes the call and answers where the frame of its answer ends.
pub fn make(frame: &mut [u8], buf: &mut [u8], numbers: &mut [u64], out: &mut [u8]) -> u32 {
    let call = call_of(frame);
    match call {
        7 => crate::outputs::copy_map(frame, buf, numbers, out),
        8 | 23 => crate::outputs::bytes(call, frame, buf, out),
        12 => crate::adds::begin(buf, out),
        13..=18 => crate::adds::make(call, frame, buf, numbers, out),
        19..=22 => crate::members::make(call, frame, buf, out),
        25 => modules::make(frame, buf, out),
        26..=32 => framed_payloads::make(call, frame, buf, numbers, out),
        33 => framed_payloads::export(frame, buf, out),
        _ => crate::questions::make(call, frame, buf, out),
    }
}
