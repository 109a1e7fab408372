// The rules on the entries that a map's numbers give, three to an entry. One pass tells the first of 13, 15 and 16 that they break: an
// entry that has a type and ends by the next one's address breaks none of them; from the first that does not, types and ranges are left
// to try, and from the first range past 2^64 on, types alone.
ghost use Rattle.std.specs.Prelude.{◌≡◌, ℕ, List, ◌+◌, ◌*◌, ◌%◌, ◌<◌, ◌≤◌, ◌^◌, ◌&&◌, length, get_or};
ghost use Rattle.refusals.specs.Answers.{checked};
ghost use Rattle.words.specs.Words.{numbers_in};
ghost use Rattle.ultra_format.specs.Contexts.{Body};
ghost use Rattle.ultra_format.specs.Members.{body_check, every, entry_typed, entry_fits};
ghost use Rattle.ultra_format.specs.Additions.{entries_given};
ghost use Rattle.ultra_map.specs.OnePass.{Whole, entry_from, given_from, ends_by_next, left_by, settled, typed_and_fits};

// How many numbers an entry has.
const ENTRY: usize = 3;

// A map's numbers, read where they stand.
pub trait Numbers: Copy {
    ghost numbers: { Self → List ℕ };

    fn count(self) -> usize
        ensures { result ≡ length (numbers self) };

    fn number(self, i: usize) -> u64
        requires { i < length (numbers self) }
        ensures { result ≡ get_or (numbers self) i 0 };
}

impl Numbers for &[u64] {
    ghost numbers = { λ s. s.now };

    fn count(self) -> usize {
        self.len()
    }

    fn number(self, i: usize) -> u64 {
        self[i]
    }
}

// "64-bit lists as bytes, eight to a number"
impl Numbers for &[u8] {
    ghost numbers = { λ s. numbers_in s.now };

    #[tactic(auto, using(words::proofs::Numbers::length_numbers))]
    fn count(self) -> usize {
        self.len() / 8
    }

    #[tactic(auto, using(words::proofs::Numbers::length_numbers, crate::proofs::Entries::number_is))]
    fn number(self, i: usize) -> u64 {
        words::load_u64(self, 8 * i)
    }
}

// Whether the type of the entry at `place`, in all its 64 bits, is not 0.
fn is_typed<N: Numbers>(map: N, place: usize) -> bool
    requires { (place + 3 ≤ length (N.numbers map)) × (place + 2 < 2 ^ 64) }
    ensures { result ≡ entry_typed (entry_from (N.numbers map) place) }
{
    map.number(place + 2) != 0
}

// Whether it has a type and ends by the next one's address.
fn is_settled<N: Numbers>(map: N, place: usize) -> bool
    requires { (place + 6 ≤ length (N.numbers map)) × (place + 3 < 2 ^ 64) }
    ensures { result ≡ (entry_typed (entry_from (N.numbers map) place) && ends_by_next (entry_from (N.numbers map) place) (entry_from (N.numbers map) (place + 3))) }
{
    is_typed(map, place)
        && address_ranges::ends_by(
            map.number(place),
            map.number(place + 1),
            map.number(place + ENTRY),
        )
}

// Whether it has a type and ends at 2^64 or below.
fn is_fit<N: Numbers>(map: N, place: usize) -> bool
    requires { (place + 3 ≤ length (N.numbers map)) × (place + 2 < 2 ^ 64) }
    ensures { result ≡ (entry_typed (entry_from (N.numbers map) place) && entry_fits (entry_from (N.numbers map) place)) }
{
    is_typed(map, place) && address_ranges::fits(map.number(place), map.number(place + 1))
}

// Where the first entry is that is not settled, or `last`, where the last one is, which has no next one.
#[tactic(auto, using(crate::proofs::Triples::pass))]
fn first_unsettled<N: Numbers>(map: N, last: usize) -> usize
    requires { Whole 3 0 last × (last + 3 ≡ length (N.numbers map)) }
    ensures { Whole 3 result last × (given_from (N.numbers map) result ≡ left_by settled (entries_given (N.numbers map))) }
{
    for place in (0..last).step_by(ENTRY) {
        if !is_settled(map, place) {
            return place;
        }
    }
    last
}

// Of the entries from `at` on: where the first is that does not fit, or `end`, the end of the numbers.
#[tactic(auto, using(crate::proofs::Triples::pass))]
fn first_unfit<N: Numbers>(map: N, at: usize, end: usize) -> usize
    requires { Whole 3 at end × (end ≡ length (N.numbers map)) }
    ensures { Whole 3 result end × (given_from (N.numbers map) result ≡ left_by typed_and_fits (given_from (N.numbers map) at)) }
{
    for place in (at..end).step_by(ENTRY) {
        if !is_fit(map, place) {
            return place;
        }
    }
    end
}

#[tactic(auto, using(crate::proofs::Triples::pass))]
fn all_typed<N: Numbers>(map: N, at: usize, end: usize) -> bool
    requires { Whole 3 at end × (end ≡ length (N.numbers map)) }
    ensures { result ≡ every entry_typed (given_from (N.numbers map) at) }
{
    for place in (at..end).step_by(ENTRY) {
        if !is_typed(map, place) {
            return false;
        }
    }
    true
}

// The first of 13, 15 and 16 that the entries break. It is never 12: the size is that of so many entries.
// Where an entry before the last is unsettled and none from it on breaks 13 or 15, it and the next are out of order.
pub fn check<N: Numbers>(map: N) -> Result<(), u16>
    requires whole { length (N.numbers map) % 3 ≡ 0 }
    requires bounded { (i : ℕ) → get_or (N.numbers map) i 0 < 2 ^ 64 }
    ensures { result ≡ checked (body_check (8 + 24 * length (entries_given (N.numbers map))) (Body.memory_map (entries_given (N.numbers map)))) }
{
    let end = map.count();
    if end == 0 {
        return Ok(());
    }
    let last = end - ENTRY;
    let unsettled = first_unsettled(map, last);
    let unfit = first_unfit(map, unsettled, end);
    let typed = all_typed(map, unfit, end);
    ultra_rules::first_broken(true, typed, true, unfit == end, unsettled == last)
}
