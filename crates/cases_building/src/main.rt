// Begins contexts and adds to them, after document 01's "Beginning" and "Adding": the context of 01's listing, byte for byte, and one of
// every type that is read back, and whose records are added again. What refuses an add has a program of its own, cases_adding.
#![tactic(auto)]

mod again;
mod begins;
mod every;
mod listing;

use std::io;

fn main(rt: HostRuntime) -> io::Result<()> {
    begins::all(&rt)?;
    listing::all(&rt)?;
    let built = every::all(&rt)?;
    again::all(&rt, built)
}
