// Many records, long strings and buffers longer than the room.
use crate::{given, writing};
use cases_shared::show;
use std::io;

fn put(buf: &mut [u8; 70000], at: u64, number: u64) {
    let place = at as usize;
    if place < 69000 {
        words::store_u32(buf, place, (number % 4294967296) as u32);
    }
}

// All else is zero: FREE, and a table of zeros.
fn payload(count: u64, size: u64, agent: u64, end: u64) -> [u8; 70000] {
    let mut buf = [0u8; 70000];
    put(&mut buf, 0, 3221336065);
    put(&mut buf, 4, agent);
    put(&mut buf, 8, size);
    put(&mut buf, 12, count);
    put(&mut buf, end, 4294967295);
    buf
}

// The count, the size, the agent, how many bytes are lent, and where there is an end tag.
pub fn read(rt: &impl Print, label: &[u8], numbers: [u64; 6]) -> io::Result<()> {
    let buf = payload(numbers[0], numbers[1], numbers[2], numbers[4]);
    show::call(
        rt,
        label,
        handover_reading::read(given::part(&buf, 0, numbers[3])),
    )
}

// Records of an unknown tag from 16 on, but for a FILE, a CMDLINE, and an END at index 1,023.
fn records() -> [u8; 70000] {
    let mut buf = [b'a'; 70000];
    put(&mut buf, 48, 3418582331);
    put(&mut buf, 80, 1129398468);
    put(&mut buf, 32752, 4294967295);
    buf
}

// Four strings of so many bytes from 40,000 on, in a run of 60,000.
fn numbers(size: u64) -> [u64; 23] {
    [
        40000, size, 0, 0, 0, 0, 40000, size, 40000, size, 0, 0, 40000, size, 0, 0, 0, 0, 32768,
        18, 60000, 70000, 0,
    ]
}

// That size, and up to two pairs.
pub fn write(rt: &impl Print, label: &[u8], row: [u64; 6]) -> io::Result<()> {
    let from = records();
    let before = [165u8; 70000];
    let mut after = before;
    let pairs = [row[1], row[2], row[3], row[4], 0, 0];
    let lent = given::changed_numbers(numbers(row[0]), pairs);
    let answer = given::write(&mut after, &from, lent);
    writing::line(rt, label, answer, b", bytes changed ", &before, &after)
}
