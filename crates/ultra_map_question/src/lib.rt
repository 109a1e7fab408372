// The map copied out: document 01, "Questions". Crate ultra_questions passes the two calls on.
#![tactic(auto)]

ghost use Rattle.std.specs.Prelude.{◌≡◌, ◌+◌, ◌*◌, ◌≤◌, length};
ghost use Rattle.byte_layout.specs.Stored.{over};
ghost use Rattle.words.specs.Words.{u32_at, numbers_at};
ghost use Rattle.ultra_map_question.specs.MapQuestion.{map_copied, map_copied_bytes, entries_stored, no_numbers, map_numbers};

use refusals::Refusal;
use ultra_layout::{attribute, entry, map, types};

// What the question answers, and where the numbers that it copies start and how many they are. The answer stands beside them, since reading's
// refusal is returned unchanged.
#[derive(Clone, Copy)]
struct MapNumbers {
    answer: Result<u32, Refusal>,
    start: usize,
    count: usize,
}

// Copies the `n` numbers from `at` on to the front of `out`; what is after them stays.
#[tactic(auto, using(crate::proofs::MapLaws::copying), unfolding(words::specs::Words::numbers_at))]
fn copy_numbers(bytes: &[u8], at: usize, n: usize, out: &mut [u64])
    requires { (at + 8 * n ≤ length bytes.now) × (n ≤ length out.old) }
    ensures { out.new ≡ over (numbers_at bytes.now at n) out.old }
{
    for (i, number) in out[..n].iter_mut().enumerate() {
        *number = words::load_u64(bytes, at + 8 * i);
    }
}

// How many entries the map attribute at `start` has.
fn entries_at(buf: &[u8], start: u32) -> u32
    requires { (start + 8 ≤ length buf.now) × (8 ≤ u32_at buf.now (start + 4)) }
    ensures { result ≡ entries_stored buf.now start }
{
    let size = words::load_u32(buf, start as usize + attribute::SIZE);
    (size - map::ENTRIES as u32) / entry::WIDTH as u32
}

// The answer alone, with nothing to copy.
fn no_numbers(answer: Result<u32, Refusal>) -> MapNumbers
    ensures { result ≡ no_numbers answer }
{
    MapNumbers {
        answer,
        start: 0,
        count: 0,
    }
}

// The map's numbers, "three to an entry", for an output of `capacity` numbers; 19 where there is no map, then 18 where they are more.
fn map_numbers(buf: &[u8], capacity: usize) -> MapNumbers
    ensures { result ≡ map_numbers buf.now capacity }
{
    let answer = ultra_reading::used_length(buf, 2);
    let Ok(used) = answer else {
        return no_numbers(answer);
    };
    let start = ultra_locating::first_of_type(buf, types::MEMORY_MAP);
    if start == 0 {
        return no_numbers(Err(Refusal::new(refusals::ABSENT, used)));
    }
    let entries = entries_at(buf, start);
    let count = 3 * entries as usize;
    if capacity < count {
        return no_numbers(Err(Refusal::new(refusals::ROOM, used)));
    }
    MapNumbers {
        answer: Ok(entries),
        start: start as usize + map::ENTRIES,
        count,
    }
}

// Copies the map's entries and answers how many there are; elements after the last triple stay.
pub fn copy_map(buf: &[u8], out: &mut [u64]) -> Result<u32, Refusal>
    ensures { (result, out.new) ≡ map_copied buf.now out.old }
{
    let numbers = map_numbers(buf, out.len());
    copy_numbers(buf, numbers.start, numbers.count, out);
    numbers.answer
}

// The same into bytes, "eight to a number": the output counts whole eights, and bytes after the last triple stay.
pub fn copy_map_bytes(buf: &[u8], out: &mut [u8]) -> Result<u32, Refusal>
    ensures { (result, out.new) ≡ map_copied_bytes buf.now out.old }
{
    let numbers = map_numbers(buf, out.len() / 8);
    byte_layout::copy(buf, numbers.start, 8 * numbers.count, out);
    numbers.answer
}
