// Frames from standard input, each answered on standard output.
use call_frames::frame::{HEAD, REST};
use call_frames::reply;
use full_reads::read_full;
use std::io;
use std::io::{Read, Write};

// Reads the next frame to the front of `frame`, if there is memory for it, and answers where it ends; none where the input ends before.
fn next<R: Read>(input: &mut R, frame: &mut [u8]) -> Option<usize> {
    if frame.len() < HEAD || read_full(input, &mut frame[..HEAD]) < HEAD {
        return None;
    }
    let rest = words::load_u32(frame, REST) as usize;
    let end = HEAD + rest;
    if frame.len() < end {
        return Some(end);
    }
    let read = read_full(input, &mut frame[HEAD..end]);
    (read == rest).then_some(end)
}

// Writes the answer that ends before `end`, so that a caller who waits for it has it, and answers whether there was memory for it.
fn write<W: Write>(output: &mut W, out: &mut [u8], end: u32) -> io::Result<bool> {
    reply::finish(out, end);
    let Some(written) = out.get(..end as usize) else {
        return Ok(false);
    };
    output.write_all(written)?;
    output.flush()?;
    Ok(true)
}

fn malformed<W: Write>(output: &mut W, out: &mut [u8]) -> io::Result<bool> {
    let end = reply::head(out, framed_calls::MALFORMED, 0, 0);
    write(output, out, end)
}

// Answers the call of a frame, and answers how long the buffer is then; none where there was no memory for the answer.
fn answer<W: Write>(
    output: &mut W,
    frame: &mut [u8],
    buffer: &mut [u8],
    held: usize,
    numbers: &mut [u64],
    out: &mut [u8],
) -> io::Result<Option<usize>> {
    if !framed_calls::suits(frame, buffer.len(), numbers.len()) {
        let written = malformed(output, out)?;
        return Ok(written.then_some(held));
    }
    let length = framed_calls::load(frame, buffer, held);
    let end = framed_calls::make(frame, &mut buffer[..length], numbers, out);
    let written = write(output, out, end)?;
    Ok(written.then_some(length))
}

// Answers frame after frame until the input ends or an answer is not written: 2^64 - 1 frames at most, since a program that is proved has
// to end.
fn serve<R: Read, W: Write>(
    input: &mut R,
    output: &mut W,
    frame: &mut [u8],
    buffer: &mut [u8],
    numbers: &mut [u64],
    out: &mut [u8],
) -> io::Result<()> {
    let mut held = 0;
    for _ in 0..u64::MAX {
        let Some(end) = next(input, frame) else {
            break;
        };
        if frame.len() < end {
            malformed(output, out)?;
            break;
        }
        match answer(output, &mut frame[..end], buffer, held, numbers, out)? {
            Some(length) => held = length,
            None => break,
        }
    }
    Ok(())
}

// The same with the program's memory. A callee that names an array's length owes no proof of it.
pub fn serve_in<R: Read, W: Write>(
    input: &mut R,
    output: &mut W,
    frame: &mut [u8; 1048576],
    buffer: &mut [u8; 131072],
    numbers: &mut [u64; 9000],
    out: &mut [u8; 1310720],
) -> io::Result<()> {
    serve(input, output, frame, buffer, numbers, out)
}
