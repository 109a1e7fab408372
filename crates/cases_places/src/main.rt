// Adds where an attribute may stand and where it may not, after document 01's "Adding": the places (9, 10, 11) and the room (18).
#![tactic(auto)]

mod adds;
mod long;
mod places;

use adds::add;
use cases_adds::{changed, context, line};
use cases_text::table;
use refusals::Refusal;
use std::io;

// The first `count` of a platform and a kernel.
fn front(count: u64) -> [u8; 1024] {
    match count {
        0 => context::begun(),
        1 => context::platform(),
        _ => context::kernel(),
    }
}

// Adds nothing for type 0.
fn add_one(buf: &mut [u8; 1024], kind: u64) {
    if kind != 0 {
        let _ = add(buf, kind, 0);
    }
}

// The same, and attributes of two types.
fn attributes(count: u64, first: u64, second: u64) -> [u8; 1024] {
    let mut buf = front(count);
    add_one(&mut buf, first);
    add_one(&mut buf, second);
    buf
}

// Adds to the first `room` bytes.
fn add_within(buf: &mut [u8], room: u64, kind: u64, variant: u64) -> Result<u32, Refusal> {
    let end = room as usize;
    if end <= buf.len() {
        return add(&mut buf[0..end], kind, variant);
    }
    Ok(0)
}

// What stands there, as three numbers for `attributes`; the room; and the type and the variant of what is added. All of the buffer is
// compared.
fn case(rt: &impl Print, row: &[u8]) -> io::Result<()> {
    let [count, first, second, room, kind, variant] = table::numbers::<6>(row);
    let before = attributes(count, first, second);
    let mut after = before;
    let answer = add_within(&mut after, room, kind, variant);
    line(rt, table::label(row), answer, changed(&before, &after))
}

fn main(rt: HostRuntime) -> io::Result<()> {
    places::all(&rt)?;
    long::all(&rt)
}
