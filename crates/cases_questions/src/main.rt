// Runs three of the four questions on contexts by hand, after document 01's "Questions": the map copied out, the command line, and which
// module holds an address. The attribute at an index has a program of its own, cases_attributes.
#![tactic(auto)]

mod lines;
mod maps;
mod modules;

use std::io;

fn main(rt: HostRuntime) -> io::Result<()> {
    maps::all(&rt)?;
    lines::all(&rt)?;
    modules::all(&rt)
}
