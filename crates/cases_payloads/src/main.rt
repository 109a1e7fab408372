// Handover payloads, after request R-2 of document 02 and document 002: read, asked and written, on both sides of each rule. The cases are the
// rows of the file stdin; its comments say what they are given.
#![tactic(auto)]

mod again;
mod given;
mod long;
mod questions;
mod writing;

use cases_text::table;
use std::io;

fn case(rt: &impl Print, row: &[u8]) -> io::Result<()> {
    let Some((kind, label)) = table::kind(row) else {
        return Ok(());
    };
    let numbers = table::numbers::<6>(row);
    match kind {
        b'r' => questions::read(rt, label, numbers),
        b'a' => questions::agent(rt, label, numbers),
        b'i' => questions::record(rt, label, numbers),
        b'w' => writing::write(rt, label, numbers),
        b's' => writing::same(rt, label, numbers),
        b'b' => writing::bytes(rt, label, numbers),
        b'c' => again::copy(rt, label, numbers),
        b'R' => long::read(rt, label, numbers),
        b'W' => long::write(rt, label, numbers),
        _ => Ok(()),
    }
}

fn main(rt: HostRuntime) -> io::Result<()> {
    let mut input = [0u8; 65536];
    let read = full_reads::read_full(&mut rt.stdin(), &mut input);
    table::try_rows(&input[..read], |row| case(&rt, row))
}
