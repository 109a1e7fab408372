// Memory maps with broken entries, in each form that is judged: numbers given, bytes given, and a context read. "all entries are tried for
// 13, then 15, then 16" (document 01), and one pass over them has to answer as three do (request R-3 of document 02). The cases are the
// rows of the file stdin; its comments say what they are given.
#![tactic(auto)]

mod forms;
mod given;

use cases_text::table;
use std::io;

fn case(rt: &impl Print, row: &[u8]) -> io::Result<()> {
    let Some((kind, label)) = table::kind(row) else {
        return Ok(());
    };
    let mut numbers = [0; 24];
    let count = table::put_numbers(row, &mut numbers);
    match kind {
        b'e' => forms::judge(rt, label, &numbers[..count], 0),
        b'b' => given::bytes_more(rt, label, &numbers[..count]),
        b's' => given::sound_but(rt, label, numbers),
        _ => Ok(()),
    }
}

fn main(rt: HostRuntime) -> io::Result<()> {
    let mut input = [0u8; 65536];
    let read = full_reads::read_full(&mut rt.stdin(), &mut input);
    table::try_rows(&input[..read], |row| case(&rt, row))
}
