// The memory map: three numbers to an entry, or 24 bytes. What is left over is no entry and is answered for before all else.
ghost use Rattle.std.specs.Prelude.{◌≡◌};
ghost use Rattle.refusals.specs.Answers.{checked};
ghost use Rattle.ultra_format.specs.Additions.{Addition, map_of, map_formed, given_check, addition_check};

use ultra_layout::entry;

// The first of 12 to 16 that the memory map given breaks.
#[tactic(auto, unfolding(ultra_format::specs::Additions::body_given, ultra_format::specs::Additions::given_check, ultra_format::specs::Members::body_check, ultra_format::specs::Plain::written_size))]
pub fn check(numbers: &[u64]) -> Result<(), u16>
    ensures { result ≡ checked (addition_check (Addition.add_map numbers.now)) }
{
    if numbers.len() % 3 != 0 {
        return Err(refusals::FORM);
    }
    ultra_map::numbers::check(numbers)
}

// The same of a map given as bytes: "12 for a map not of 24n bytes".
#[tactic(auto, using(ultra_format::proofs::Numbers::map_given, ultra_format::proofs::Numbers::map_given_size), unfolding(ultra_format::specs::Additions::given_check, ultra_format::specs::Members::body_check))]
pub fn bytes_check(entries: &[u8]) -> Result<(), u16>
    ensures { result ≡ checked (given_check (map_formed entries.now) (map_of entries.now)) }
{
    if entries.len() % entry::WIDTH != 0 {
        return Err(refusals::FORM);
    }
    ultra_map::entries_check(entries, 0, entries.len() / entry::WIDTH)
}
