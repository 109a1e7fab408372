// Addresses and ranges of them, judged in whole numbers without forming a sum that could wrap.
#![tactic(auto)]

ghost use Rattle.std.specs.Prelude.{◌≡◌};
ghost use Rattle.address_ranges.specs.Ranges.{page_aligned, range_fits, ends_by, pages_cover};

pub fn page_aligned(number: u64) -> bool
    ensures { result ≡ page_aligned number }
{
    number.is_multiple_of(4096)
}

// Whether the range ends at 2^64 or below.
pub fn fits(address: u64, size: u64) -> bool
    ensures { result ≡ range_fits address size }
{
    size == 0 || size - 1 <= u64::MAX - address
}

// Whether `next` is at or past the end of the range.
pub fn ends_by(address: u64, size: u64, next: u64) -> bool
    ensures { result ≡ ends_by address size next }
{
    address <= next && size <= next - address
}

// Whether the pages that `size` bytes from `start` on fill cover `address`: whether its page, counted from `start`, begins within the
// size. The size rounded up to 4,096 may be 2^64, so it is not formed.
#[tactic(auto, unfolding(crate::specs::Ranges::pages_cover))]
pub fn pages_cover(start: u64, size: u64, address: u64) -> bool
    ensures { result ≡ pages_cover start size address }
{
    start <= address && (address - start) / 4096 * 4096 < size
}
