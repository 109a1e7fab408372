// Contexts exported to Handover payloads, after request R-6 of document 02, on both sides of each rule; each payload is read back. The cases are
// the rows of the file stdin; its comments say what they are given.
#![tactic(auto)]

mod given;
mod show;

use cases_text::table;
use std::io;

// The records that are shown of a payload.
const SHOWN: u64 = 16;

// One attribute by its number: 3 is a map of two ranges, 30 an empty one; 4 a module whose name has three letters, 40 one without a name; 5 a
// command line of five letters, 50 an empty one; 6 a framebuffer; 7 a vendor's. There is none where the row has no more numbers.
fn attribute(buf: &mut [u8], at: usize, kind: u64) -> usize {
    match kind {
        3 => given::map(buf, at, 2),
        30 => given::map(buf, at, 0),
        4 => given::module(buf, at, 3),
        40 => given::module(buf, at, 0),
        5 => given::line(buf, at, 5),
        50 => given::line(buf, at, 0),
        6 => given::framebuffer(buf, at),
        7 => given::other(buf, at),
        _ => at,
    }
}

// The RSDP address, the load address, the output's length, and the attributes after the kernel.
fn attributes(rt: &impl Print, label: &[u8], numbers: [u64; 24], count: usize) -> io::Result<()> {
    let [rsdp, load, length, ..] = numbers;
    let mut buf = [0u8; 4096];
    let mut at = given::front(&mut buf, (count as u64).wrapping_sub(1), rsdp);
    for kind in &numbers[3..] {
        at = attribute(&mut buf, at, *kind);
    }
    show::export(rt, label, &buf, load, length, SHOWN)
}

// The address, the size and the type of the map's one range.
fn range(rt: &impl Print, label: &[u8], numbers: [u64; 24]) -> io::Result<()> {
    let [address, size, kind, ..] = numbers;
    let mut buf = [0u8; 4096];
    let at = given::front(&mut buf, 3, 0);
    given::map(&mut buf, at, 1);
    given::entry(&mut buf, 408, address, size, kind);
    show::export(rt, label, &buf, 0, 1000, 2)
}

// How many ranges, the RSDP address, the load address and the output's length.
fn ranges(rt: &impl Print, label: &[u8], numbers: [u64; 24]) -> io::Result<()> {
    let [n, rsdp, load, length, ..] = numbers;
    let mut buf = [0u8; 65536];
    let at = given::front(&mut buf, 3, rsdp);
    given::map(&mut buf, at, n);
    show::export(rt, label, &buf, load, length, 1)
}

// How many modules with a name of 63 letters, how many letters in the command line, the load address and the output's length.
fn modules(rt: &impl Print, label: &[u8], numbers: [u64; 24]) -> io::Result<()> {
    let [n, letters, load, length, ..] = numbers;
    let mut buf = [0u8; 65536];
    let at = given::front(&mut buf, 3 + n % 1000, 0);
    let end = given::modules(&mut buf, at, n % 1000);
    given::line(&mut buf, end, letters);
    show::export(rt, label, &buf, load, length, 1)
}

fn case(rt: &impl Print, row: &[u8]) -> io::Result<()> {
    let Some((kind, label)) = table::kind(row) else {
        return Ok(());
    };
    let mut numbers = [0; 24];
    let count = table::put_numbers(row, &mut numbers);
    match kind {
        b'a' => attributes(rt, label, numbers, count),
        b't' => range(rt, label, numbers),
        b'r' => ranges(rt, label, numbers),
        b'm' => modules(rt, label, numbers),
        _ => Ok(()),
    }
}

fn main(rt: HostRuntime) -> io::Result<()> {
    let mut input = [0u8; 65536];
    let read = full_reads::read_full(&mut rt.stdin(), &mut input);
    table::try_rows(&input[..read], |row| case(&rt, row))
}
