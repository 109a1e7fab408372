// Adds to contexts that no add makes, after document 01's "Adding": what reading refuses, versions, sizes and silent bytes that an add
// keeps, and 1,024 attributes (17).
#![tactic(auto)]

mod again;
mod foreign;
mod full;
mod reading;

use std::io;

fn main(rt: HostRuntime) -> io::Result<()> {
    reading::all(&rt)?;
    foreign::all(&rt)?;
    again::all(&rt)?;
    full::all(&rt)
}
