// Which type may stand where: refusals 9 to 11.
#![tactic(auto)]

ghost use Rattle.std.specs.Prelude.{◌≡◌, ◌≤◌};
ghost use Rattle.refusals.specs.Answers.{checked};
ghost use Rattle.ultra_format.specs.Places.{placed, single, occurs, nearest, place_check};
ghost use Rattle.ultra_format.specs.Decoding.{types_before};
ghost use Rattle.ultra_stepping.specs.Walking.{InBounds};

use ultra_layout::types;

#[tactic(auto, using(crate::proofs::PlaceLaws::indices))]
fn is_placed(index: u32, kind: u32) -> bool
    ensures { result ≡ placed index kind }
{
    match index {
        0 => kind == types::PLATFORM,
        1 => kind == types::KERNEL,
        _ => !matches!(kind, types::PLATFORM | types::KERNEL),
    }
}

fn is_single(kind: u32) -> bool
    ensures { result ≡ single kind }
{
    matches!(
        kind,
        types::MEMORY_MAP | types::COMMAND_LINE | types::FRAMEBUFFER
    )
}

// Whether one of the first `count` attributes is of type `kind`.
#[tactic(auto, using(crate::proofs::PlaceLaws::found_is))]
fn occurs(buf: &[u8], kind: u32, count: u32) -> bool
    requires { InBounds buf.now count }
    ensures { result ≡ occurs kind (types_before buf.now count) }
{
    ultra_stepping::first_of_type(buf, kind, count) != 0
}

// The first of 9 to 11 that an attribute of type `kind` at `index` breaks, after one of type `previous`.
#[tactic(auto, using(crate::proofs::PlaceLaws::answers))]
pub fn check(buf: &[u8], index: u32, previous: u32, kind: u32) -> Result<(), u16>
    requires in_bounds { InBounds buf.now index }
    requires previous_value { (previous ≡ nearest (types_before buf.now index)) × (1 ≤ kind) }
    ensures { result ≡ checked (place_check (types_before buf.now index) kind) }
{
    if !is_placed(index, kind) {
        return Err(refusals::PLACE);
    }
    if kind < types::MEMORY_MAP {
        return Ok(());
    }
    if is_single(kind) {
        if occurs(buf, kind, index) {
            return Err(refusals::REPEAT);
        }
        return Ok(());
    }
    if kind == previous {
        return Ok(());
    }
    if occurs(buf, kind, index) {
        return Err(refusals::SPLIT);
    }
    Ok(())
}

// The type of the last of the first `count` attributes, or 0, as `nearest` has it where there is none.
#[tactic(auto, using(crate::proofs::PlaceLaws::last))]
fn last_type(buf: &[u8], count: u32) -> u32
    requires { InBounds buf.now count }
    ensures { result ≡ nearest (types_before buf.now count) }
{
    if count == 0 {
        return 0;
    }
    words::load_u32(buf, ultra_stepping::start_of(buf, count - 1))
}

// The first of 9 to 11 that one more attribute, of type `kind`, breaks after `count` of them. For adding.
pub fn next_place_check(buf: &[u8], count: u32, kind: u32) -> Result<(), u16>
    requires in_bounds { InBounds buf.now count }
    requires le_kind { 1 ≤ kind }
    ensures { result ≡ checked (place_check (types_before buf.now count) kind) }
{
    let previous = last_type(buf, count);
    check(buf, count, previous, kind)
}
