// Reading a lent context. Stepping, and the check of where a type may stand, are passed on.
#![tactic(auto)]

mod walk;

ghost use Rattle.std.specs.Prelude.{◌≡◌};
ghost use Rattle.ultra_reading.specs.Reading.{used_length, reading_of};

use refusals::Refusal;
pub use ultra_places::next_place_check;
pub use ultra_stepping::{Cursor, Header};

#[derive(Clone, Copy)]
pub struct Version {
    pub major: u8,
    pub minor: u8,
}

// What reading answers of a context that it accepts: the version and the used length.
#[derive(Clone, Copy)]
pub struct Accepted {
    pub version: Version,
    pub used: u32,
}

// The used length of a context of at least `fewest` attributes. For the crates above: adding reads with 0, everything else with 2.
pub fn used_length(buf: &[u8], fewest: u32) -> Result<u32, Refusal>
    ensures { result ≡ used_length fewest buf.now }
{
    if let Err(number) = ultra_stepping::head::check(buf, fewest) {
        return Err(Refusal::new(number, 0));
    }
    let count = words::load_u32(buf, ultra_layout::head::COUNT);
    walk::attributes(buf, lent_buffers::room(buf), count)
}

// Reads a context.
pub fn read(buf: &[u8]) -> Result<Accepted, Refusal>
    ensures { result ≡ reading_of buf.now }
{
    let used = used_length(buf, 2)?;
    let version = Version {
        major: buf[0],
        minor: buf[1],
    };
    Ok(Accepted { version, used })
}
