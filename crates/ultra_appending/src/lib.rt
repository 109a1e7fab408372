// One more attribute at the end of a context: what refuses it there, the offset where it goes, and one more in the head's count.
#![tactic(auto)]

ghost use Rattle.std.specs.Prelude.{◌≡◌, ◌≤◌, Ok};
ghost use Rattle.refusals.specs.Answers.{checked, number_in};
ghost use Rattle.lent_buffers.specs.Room.{room_of};
ghost use Rattle.ultra_format.specs.Decoding.{stored_count, types_before};
ghost use Rattle.ultra_reading.specs.Reading.{used_length};
ghost use Rattle.ultra_appending.specs.Appending.{append_check, append_offset, count_raised};

use refusals::Refusal;
use ultra_layout::head;

// What the members answer by themselves; `Err(0)` names no number, and counts as nothing broken.
fn judged(given: Result<(), u16>) -> Result<(), u16>
    ensures { result ≡ checked (number_in given) }
{
    match given {
        Err(0) => Ok(()),
        other => other,
    }
}

// The first of 17, 9 to 16 and 18 that an attribute of type `kind` and of `size` bytes breaks at the used length `used`; `given` is what its
// members answer by themselves: the first of 12 to 16 that they break.
fn check(buf: &[u8], used: u32, kind: u32, given: Result<(), u16>, size: usize) -> Result<(), u16>
    requires buf_value { used_length 0 buf.now ≡ Ok used }
    requires le_kind { 1 ≤ kind }
    ensures { result ≡ checked (append_check (types_before buf.now (stored_count buf.now)) (room_of buf.now) used kind (number_in given) size) }
{
    let count = words::load_u32(buf, head::COUNT);
    if 1024 <= count {
        return Err(refusals::FULL);
    }
    ultra_reading::next_place_check(buf, count, kind)?;
    judged(given)?;
    if lent_buffers::room(buf) - (used as usize) < size {
        return Err(refusals::ROOM);
    }
    Ok(())
}

// The offset where the attribute goes, or the refusal: that of reading first.
fn offset(buf: &[u8], kind: u32, given: Result<(), u16>, size: usize) -> Result<u32, Refusal>
    requires le_kind { 1 ≤ kind }
    ensures { result ≡ append_offset buf.now kind (number_in given) size }
{
    let answer = ultra_reading::used_length(buf, 0);
    let Ok(used) = answer else {
        return answer;
    };
    if let Err(number) = check(buf, used, kind, given, size) {
        return Err(Refusal::new(number, used));
    }
    Ok(used)
}

// Counts the attribute in the head, unless it is refused; answers the offset where it goes.
pub fn raise_count(
    buf: &mut [u8],
    kind: u32,
    given: Result<(), u16>,
    size: usize,
) -> Result<u32, Refusal>
    requires le_kind { 1 ≤ kind }
    ensures { (result, buf.new) ≡ count_raised buf.old kind (number_in given) size }
{
    let answer = offset(buf, kind, given, size);
    let Ok(_) = answer else {
        return answer;
    };
    let count = words::load_u32(buf, head::COUNT);
    words::store_u32(buf, head::COUNT, count + 1);
    answer
}
