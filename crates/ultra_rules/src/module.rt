// A module: type 4.
ghost use Rattle.std.specs.Prelude.{◌≡◌, true};
ghost use Rattle.refusals.specs.Answers.{checked};
ghost use Rattle.address_ranges.specs.Ranges.{range_fits};
ghost use Rattle.ultra_format.specs.Members.{module_values, member_check};

#[tactic(auto, unfolding(ultra_format::specs::Members::module_values))]
fn values(kind: u32, address: u64) -> bool
    ensures { result ≡ module_values kind address }
{
    matches!(kind, 1 | 2) && address_ranges::page_aligned(address)
}

// The first rule that a module breaks: `text` says whether its name is as it has to be.
pub fn check(kind: u32, address: u64, size: u64, text: bool) -> Result<(), u16>
    ensures { result ≡ checked (member_check true (module_values kind address) text (range_fits address size) true) }
{
    let value = values(kind, address);
    let range = address_ranges::fits(address, size);
    crate::first_broken(true, value, text, range, true)
}
