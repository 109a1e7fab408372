// The library's listing call on both sides of its boundary: outputs of 165s that are one byte too short, just long enough, longer, and
// empty, for a refused buffer and for an accepted one. Whole listings are the samples' (crate list_context).
#![tactic(auto)]

use cases_contexts::build;
use cases_shared::show;
use cases_text::print;
use std::io;

// The first 12 bytes and the last; all where there are fewer.
fn ends(rt: &impl Print, bytes: &[u8]) -> io::Result<()> {
    print::words(rt, b", bytes")?;
    let n = bytes.len();
    if n < 12 {
        print::numbers(rt, bytes)?;
        return Ok(());
    }
    print::numbers(rt, &bytes[0..12])?;
    print::words(rt, b" ..")?;
    print::numbers(rt, &bytes[n - 1..])
}

// What `list` answers, and what the output has afterwards.
fn list(rt: &impl Print, label: &[u8], buf: &[u8], out: &mut [u8]) -> io::Result<()> {
    print::words(rt, label)?;
    show::answer(rt, ultra_listing::list(buf, out))?;
    ends(rt, out)?;
    print::words(rt, b"\n")
}

fn length(rt: &impl Print, label: &[u8], buf: &[u8]) -> io::Result<()> {
    print::words(rt, label)?;
    println!(rt; ": length {}", ultra_listing::listing_length(buf))
}

// "H alone: HEADER at 8": `refused=5,8` and a newline are 12 bytes.
fn refused(rt: &impl Print) -> io::Result<()> {
    let head = [1, 0, 0, 0, 2, 0, 0, 0];
    length(rt, b"H alone", &head)?;
    list(rt, b"H alone, output of 11", &head, &mut [165u8; 11])?;
    list(rt, b"H alone, output of 12", &head, &mut [165u8; 12])?;
    list(rt, b"H alone, output of 13", &head, &mut [165u8; 13])?;
    list(rt, b"H alone, no output", &head, &mut [165u8; 0])
}

fn two_attributes(rt: &impl Print, buf: &[u8; 1024]) -> io::Result<()> {
    length(rt, b"two attributes", buf)?;
    list(rt, b"two attributes, output of 135", buf, &mut [165u8; 135])?;
    list(rt, b"two attributes, output of 136", buf, &mut [165u8; 136])?;
    list(rt, b"two attributes, output of 137", buf, &mut [165u8; 137])
}

// A platform of 56 bytes, of type 2 with the name `f`, and a kernel with the path `/`: 136 bytes of listing.
fn accepted(rt: &impl Print) -> io::Result<()> {
    let mut buf = [0u8; 1024];
    build::head(&mut buf, 2);
    build::platform_and_kernel(&mut buf, 56);
    two_attributes(rt, &buf)
}

fn main(rt: HostRuntime) -> io::Result<()> {
    refused(&rt)?;
    accepted(&rt)
}
