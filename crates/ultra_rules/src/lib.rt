// The rules on members, refusals 12 to 16, as tests of their values: reading puts to them what a buffer stores, adding what it is given.
#![tactic(auto)]

pub mod framebuffer;
pub mod kernel;
pub mod module;
pub mod texts;

ghost use Rattle.std.specs.Prelude.{◌≡◌};
ghost use Rattle.refusals.specs.Answers.{checked};
ghost use Rattle.ultra_format.specs.Members.{member_check};

// The first of 12 to 16 that fails.
pub fn first_broken(
    form: bool,
    value: bool,
    text: bool,
    range: bool,
    order: bool,
) -> Result<(), u16>
    ensures { result ≡ checked (member_check form value text range order) }
{
    if !form {
        return Err(refusals::FORM);
    }
    if !value {
        return Err(refusals::VALUE);
    }
    if !text {
        return Err(refusals::TEXT);
    }
    if !range {
        return Err(refusals::RANGE);
    }
    if !order {
        return Err(refusals::ORDER);
    }
    Ok(())
}
