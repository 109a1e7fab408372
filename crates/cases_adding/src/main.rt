// Adds records on both sides of document 01's rules on members, 12 to 16, and tells of each answer how many bytes it changed. Where an
// attribute may stand has a program of its own, cases_places.
#![tactic(auto)]

mod framebuffers;
mod kernels;
mod lines;
mod maps;
mod modules;
mod platforms;

use std::io;

fn main(rt: HostRuntime) -> io::Result<()> {
    maps::all(&rt)?;
    lines::all(&rt)?;
    platforms::all(&rt)?;
    kernels::all(&rt)?;
    modules::all(&rt)?;
    framebuffers::all(&rt)
}
