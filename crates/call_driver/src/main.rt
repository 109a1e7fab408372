// Makes the published calls that a stream of frames on standard input asks for, and writes a frame for each answer to standard output.
// README.md beside src/ describes the frames and the calls.
#![tactic(auto)]

mod stream;

use std::io;

fn main(rt: HostRuntime) -> io::Result<()> {
    let mut frame = [0u8; 1048576];
    let mut buffer = [0u8; 131072];
    let mut numbers = [0u64; 9000];
    let mut out = [0u8; 1310720];
    stream::serve_in(
        &mut rt.stdin(),
        &mut rt.stdout(),
        &mut frame,
        &mut buffer,
        &mut numbers,
        &mut out,
    )
}
