// Runs the question for the attribute at an index on contexts by hand, after document 01's "Questions", with the fifth of the readings
// that "look right and are not": "Reading dtb from a 56-byte platform attribute, out of the kernel attribute behind it."
#![tactic(auto)]

mod attributes;
mod context;

use std::io;

fn main(rt: HostRuntime) -> io::Result<()> {
    attributes::every_type(&rt)?;
    attributes::platforms(&rt)?;
    attributes::refused(&rt)
}
