// Runs document 01's cases that are not marked *, as far as they concern reading; those of the readings that "look right and are not"
// which an answer of reading can show: all but dtb from a 56-byte platform, which cases_attributes runs; and the rules on members.
#![tactic(auto)]

mod contexts;
mod members;
mod steps;

use cases_shared::show;
use std::io;

// Reads the first `length` bytes.
fn read_first(rt: &impl Print, label: &[u8], buf: &[u8], length: u64) -> io::Result<()> {
    match buf.get(..length as usize) {
        Some(part) => show::reading(rt, label, ultra_reading::read(part)),
        None => Ok(()),
    }
}

// The same of an array, whose length its type says.
fn read(rt: &impl Print, label: &[u8], buf: &[u8; 1024], length: u64) -> io::Result<()> {
    read_first(rt, label, buf, length)
}

fn main(rt: HostRuntime) -> io::Result<()> {
    contexts::all(&rt)?;
    members::all(&rt)?;
    steps::all(&rt)
}
