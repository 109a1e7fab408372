// A kernel takes a context over. Standard input stands for the memory that it was handed, standard output for its console.
#![tactic(auto)]

ghost use Rattle.std.specs.Prelude.{◌≡◌};
ghost use Rattle.ultra_map_question.specs.MapQuestion.{map_copied};
ghost use Rattle.example_kernel.specs.Kernel.{value_or_none};

use cases_text::print;
use std::io;

// Copies the memory ranges, three numbers each: address, size, type. Answers how many; 0 where there is no map, or no place for it.
fn copy_ranges(context: &[u8], ranges: &mut [u64]) -> u32
    ensures { result ≡ value_or_none (map_copied context.now ranges.old).0 }
{
    match ultra_questions::copy_map(context, ranges) {
        Ok(entries) => entries,
        Err(_) => 0,
    }
}

// Goes on with an accepted context. The command line is handed back as a part of it, not as a copy; where none was sent, the board's own
// text is.
fn go_on(rt: &impl Print, context: &[u8], used: u32) -> io::Result<()> {
    let mut ranges = [0u64; 384];
    let entries = copy_ranges(context, &mut ranges);
    println!(rt; "used={used}")?;
    println!(rt; "ranges={entries}")?;
    print!(rt; "first={},{},{}\ncmdline=", ranges[0], ranges[1], ranges[2])?;
    print::words(
        rt,
        ultra_questions::command_line(context, b"console=serial"),
    )?;
    print::words(rt, b"\n")
}

// A context is accepted whole, or refused by a number and an offset.
fn take_over(rt: &impl Print, context: &[u8]) -> io::Result<()> {
    match ultra_reading::read(context) {
        Ok(accepted) => go_on(rt, context, accepted.used),
        Err(refusal) => println!(rt; "refused={},{}", refusal.number, refusal.offset),
    }
}

fn main(rt: HostRuntime) -> io::Result<()> {
    let mut memory = [0u8; 65536];
    let read = full_reads::read_full(&mut rt.stdin(), &mut memory);
    take_over(&rt, &memory[..read])
}
