// Attribute by attribute: refusals 5 to 16.
ghost use Rattle.std.specs.Prelude.{◌≡◌, ◌≤◌, max, length};
ghost use Rattle.refusals.specs.Answers.{checked};
ghost use Rattle.ultra_format.specs.Places.{nearest, place_check};
ghost use Rattle.ultra_format.specs.Decoding.{types_before};
ghost use Rattle.ultra_stepping.specs.Walking.{InBounds};
ghost use Rattle.ultra_reading.specs.Reading.{highest_of, attribute_check, attributes_answer};

use refusals::Refusal;
use ultra_layout::attribute;

// The higher of two types.
fn higher(a: u32, b: u32) -> u32
    ensures { result ≡ max a b }
{
    if a < b { b } else { a }
}

// The first of 9 to 11, as `ultra_places::check`, but with no search for a type above `highest`, the highest before: it did not occur.
fn place_check(buf: &[u8], index: u32, previous: u32, highest: u32, kind: u32) -> Result<(), u16>
    requires in_bounds { InBounds buf.now index }
    requires le_kind { 1 ≤ kind }
    requires previous_value { (previous ≡ nearest (types_before buf.now index)) × (highest ≡ highest_of (types_before buf.now index)) }
    ensures { result ≡ checked (place_check (types_before buf.now index) kind) }
{
    if 2 <= index {
        if 2 < kind {
            if highest < kind {
                return Ok(());
            }
        }
    }
    ultra_places::check(buf, index, previous, kind)
}

// The first of 5 to 16 that the attribute at `at` breaks. `index`, `previous` and `highest` are its index, the type just before
// and the highest type before.
fn check(
    buf: &[u8],
    room: usize,
    index: u32,
    previous: u32,
    highest: u32,
    at: usize,
) -> Result<(), u16>
    requires room_in_bounds { (room ≤ length buf.now) × (at ≤ 4294967295) }
    requires in_bounds { InBounds buf.now index }
    requires previous_value { (previous ≡ nearest (types_before buf.now index)) × (highest ≡ highest_of (types_before buf.now index)) }
    ensures { result ≡ checked (attribute_check buf.now room (types_before buf.now index) at) }
{
    ultra_stepping::bounds::check(buf, room, at)?;
    let kind = words::load_u32(buf, at);
    place_check(buf, index, previous, highest, kind)?;
    ultra_members::body_check(buf, at, words::load_u32(buf, at + attribute::SIZE), kind)
}

// The first refusal of `count` attributes, or where they end.
pub fn attributes(buf: &[u8], room: usize, count: u32) -> Result<u32, Refusal>
    requires { (room ≤ length buf.now) × (room ≤ 65536) × (8 ≤ room) }
    ensures { result ≡ attributes_answer buf.now room 0 count }
{
    let mut at: usize = 8;
    let mut previous = 0;
    let mut highest = 0;
    for i in 0..count {
        if let Err(number) = check(buf, room, i, previous, highest, at) {
            return Err(Refusal::at(number, i, at as u32));
        }
        previous = words::load_u32(buf, at);
        highest = higher(highest, previous);
        at += words::load_u32(buf, at + attribute::SIZE) as usize;
    }
    Ok(at as u32)
}
