// What a frame has. Each function answers for any bytes: 0 or nothing where the frame ends too early.
ghost use Rattle.std.specs.Prelude.{◌≤◌, IfSome, length};

// The bytes before a frame's numbers, and where they say how many numbers, strings and further bytes there are.
pub const HEAD: usize = 16;

const NUMBERS: usize = 4;

const STRINGS: usize = 8;

pub const REST: usize = 12;

// In the place of the first string's length: it is the buffer that is there.
const KEPT: u32 = 4294967295;

// The word at `at`.
fn word(frame: &[u8], at: usize) -> u32 {
    match frame.len().checked_sub(4) {
        Some(last) if at <= last => words::load_u32(frame, at),
        _ => 0,
    }
}

// The number at `index`.
pub fn number(frame: &[u8], index: u32) -> u64 {
    let at = HEAD + 8 * index as usize;
    if frame.len() < at + 8 {
        return 0;
    }
    words::load_u64(frame, at)
}

// Where the first string's length is.
fn first_at(frame: &[u8]) -> usize {
    HEAD + 8 * word(frame, NUMBERS) as usize
}

// Whether the first string is not given: the buffer that is there is meant.
pub fn is_kept(frame: &[u8]) -> bool {
    word(frame, first_at(frame)) == KEPT
}

// How many bytes the string at `index`, whose length is at `at`, has in this frame.
fn length(frame: &[u8], index: u32, at: usize) -> usize {
    let stored = word(frame, at);
    if index == 0 && stored == KEPT {
        return 0;
    }
    stored as usize
}

// The place after the string at `index`, whose length is at `at`; none where the string does not lie within the frame.
fn after(frame: &[u8], index: u32, at: usize) -> Option<usize>
    ensures { IfSome result (λ end. end ≤ length frame.now) }
{
    let n = length(frame, index, at);
    let left = frame.len().checked_sub(at)?.checked_sub(4)?;
    if left < n {
        return None;
    }
    Some(at + 4 + n)
}

// The place after the first `count` strings, if they lie within the frame.
fn after_all(frame: &[u8], count: u32) -> Option<usize> {
    (0..count).try_fold(first_at(frame), |at, index| after(frame, index, at))
}

// Where the length of the string at `index` is.
fn string_at(frame: &[u8], index: u32) -> usize {
    after_all(frame, index).unwrap_or(frame.len())
}

// Where the bytes of the string at `index` start; at most the frame's end.
pub fn string_start(frame: &[u8], index: u32) -> usize
    ensures { result ≤ length frame.now }
{
    string_at(frame, index).saturating_add(4).min(frame.len())
}

// The string at `index`.
pub fn string(frame: &[u8], index: u32) -> &[u8] {
    let start = string_start(frame, index);
    let end = after(frame, index, string_at(frame, index)).unwrap_or(frame.len());
    frame.get(start..end).unwrap_or(b"")
}

// Takes a number out of each 8 bytes, as many as there are whole and as `numbers` holds; answers how many.
pub fn load_numbers(bytes: &[u8], numbers: &mut [u64]) -> usize
    ensures { result ≤ length numbers.new }
{
    let n = (bytes.len() / 8).min(numbers.len());
    for (i, number) in numbers[..n].iter_mut().enumerate() {
        *number = words::load_u64(bytes, 8 * i);
    }
    n
}

// Whether the frame has that many numbers and strings, and nothing else.
pub fn well_formed(frame: &[u8], numbers: u32, strings: u32) -> bool {
    word(frame, NUMBERS) == numbers
        && word(frame, STRINGS) == strings
        && after_all(frame, strings) == Some(frame.len())
}
