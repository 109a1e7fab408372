// The memory map: type 3. "The memory map comes as 64-bit numbers, three to an entry".
ghost use Rattle.std.specs.Prelude.{◌≡◌, ◌+◌, ◌%◌, ◌≤◌, ◌<◌, length};
ghost use Rattle.byte_layout.specs.Stored.{over};
ghost use Rattle.ultra_format.specs.Additions.{Addition, size_given, bytes_given, map_of, new_bytes};

use ultra_layout::{entry, map, types};

// How many bytes the attribute has. Numbers left over are no entry.
#[tactic(auto, using(crate::proofs::Entries::map_size_law))]
pub fn size(numbers: &[u64]) -> usize
    ensures { result ≡ size_given (Addition.add_map numbers.now) }
{
    map::ENTRIES + entry::WIDTH * (numbers.len() / 3)
}

#[tactic(auto, using(crate::proofs::Entries::map_size_law))]
pub fn write(part: &mut [u8], numbers: &[u64])
    requires numbers_in_bounds { size_given (Addition.add_map numbers.now) ≤ length part.old }
    requires numbers_len { (length numbers.now % 3 ≡ 0) × (size_given (Addition.add_map numbers.now) < 4294967296) }
    ensures { part.new ≡ over (bytes_given (Addition.add_map numbers.now)) part.old }
{
    let whole = size(numbers);
    crate::header(part, types::MEMORY_MAP, whole as u32);
    for (i, number) in numbers.iter().enumerate() {
        words::store_u64(part, map::ENTRIES + 8 * i, *number);
    }
}

// The same of a map given as bytes: numbers written again are the bytes that they stood in, so that these are stored as they are.
pub fn write_bytes(part: &mut [u8], entries: &[u8])
    requires { (8 + length entries.now ≤ length part.old) × (length entries.now % 24 ≡ 0) × (8 + length entries.now < 4294967296) }
    ensures { part.new ≡ over (new_bytes (map_of entries.now)) part.old }
{
    crate::header(
        part,
        types::MEMORY_MAP,
        (map::ENTRIES + entries.len()) as u32,
    );
    byte_layout::store(entries, part, map::ENTRIES);
}
