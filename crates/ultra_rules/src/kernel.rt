// The kernel: type 2.
ghost use Rattle.std.specs.Prelude.{◌≡◌, true, ◌&&◌};
ghost use Rattle.refusals.specs.Answers.{checked};
ghost use Rattle.address_ranges.specs.Ranges.{range_fits};
ghost use Rattle.ultra_format.specs.Members.{kernel_values, member_check};

#[tactic(auto, unfolding(ultra_format::specs::Members::kernel_values))]
fn values(phys: u64, virt: u64, size: u64, partition: u64) -> bool
    ensures { result ≡ kernel_values phys virt size partition }
{
    partition != 0
        && address_ranges::page_aligned(phys)
        && address_ranges::page_aligned(virt)
        && address_ranges::page_aligned(size)
}

fn both_fit(phys: u64, virt: u64, size: u64) -> bool
    ensures { result ≡ (range_fits phys size && range_fits virt size) }
{
    address_ranges::fits(phys, size) && address_ranges::fits(virt, size)
}

// The first rule that a kernel breaks: `form` and `text` say whether its form and its path are as they have to be.
pub fn check(
    form: bool,
    phys: u64,
    virt: u64,
    size: u64,
    partition: u64,
    text: bool,
) -> Result<(), u16>
    ensures { result ≡ checked (member_check form (kernel_values phys virt size partition) text (range_fits phys size && range_fits virt size) true) }
{
    let value = values(phys, virt, size, partition);
    let range = both_fit(phys, virt, size);
    crate::first_broken(form, value, text, range, true)
}
