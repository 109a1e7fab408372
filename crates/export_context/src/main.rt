// Exports the context on standard input to a Handover payload, on standard output: request R-6. The one argument is the load address, in decimal
// digits. What is written is made by `handover_export::export`, and nothing else is; what is refused is said on standard error.
#![tactic(auto)]

mod argument;

use refusals::Refusal;
use std::io;

// The line that a listing has for a refused context.
fn refused(rt: &impl Eprint, refusal: Refusal) -> io::Result<()> {
    eprintln!(rt; "refused={},{}", refusal.number, refusal.offset)
}

// Writes the payload, which is made in `out`: one that is made is not longer.
fn export(rt: &(impl Print + Eprint), input: &[u8], load: u64, out: &mut [u8]) -> io::Result<()> {
    let answer = handover_export::export(input, load, out);
    match answer {
        Err(refusal) => refused(rt, refusal),
        Ok(size) => rt.write_all(&out[..size as usize]),
    }
}

// A context and a payload each have at most 65,536 bytes.
fn run<R: io::Read>(rt: &(impl Print + Eprint), input: &mut R, load: u64) -> io::Result<()> {
    let mut space = [0u8; 65536];
    let read = full_reads::read_full(input, &mut space);
    let mut out = [0u8; 65536];
    export(rt, &space[..read], load, &mut out)
}

fn main(rt: HostRuntime) -> io::Result<()> {
    match argument::load_address(&rt) {
        Some(load) => run(&rt, &mut rt.stdin(), load),
        None => {
            eprintln!(rt;
                "usage: export_context LOAD_ADDRESS <context >payload, the address in decimal digits"
            )
        }
    }
}
