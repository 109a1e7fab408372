// Frames of answers: the call, its numbers, the buffer after it, and what else is handed back.
use crate::reply;
use refusals::Refusal;

// 0, or a refusal's number.
pub fn number(answer: Result<u32, Refusal>) -> u64 {
    match answer {
        Ok(_) => 0,
        Err(refusal) => refusal.number as u64,
    }
}

// The value, or a refusal's offset.
pub fn value(answer: Result<u32, Refusal>) -> u64 {
    match answer {
        Ok(value) => value as u64,
        Err(refusal) => refusal.offset as u64,
    }
}

// The head, the numbers and the buffer, which is the first of `strings` strings.
pub fn begin(out: &mut [u8], call: u32, numbers: &[u64], strings: u32, buf: &[u8]) -> u32 {
    let mut at = reply::head(out, call, (numbers.len() % 4294967296) as u32, strings);
    at = reply::numbers(out, at, numbers);
    reply::string(out, at, buf)
}

// Numbers and the buffer.
pub fn numbers(out: &mut [u8], call: u32, numbers: &[u64], buf: &[u8]) -> u32 {
    begin(out, call, numbers, 1, buf)
}

// Number and value alone, and the buffer, which is the first of `strings` strings.
pub fn begin_plain(
    out: &mut [u8],
    call: u32,
    answer: Result<u32, Refusal>,
    strings: u32,
    buf: &[u8],
) -> u32 {
    begin(out, call, &[number(answer), value(answer)], strings, buf)
}

// Number and value, and the buffer.
pub fn plain(out: &mut [u8], call: u32, answer: Result<u32, Refusal>, buf: &[u8]) -> u32 {
    begin_plain(out, call, answer, 1, buf)
}

// The place of a part of the buffer, the buffer, and the slice that a call without a number hands back.
pub fn part(out: &mut [u8], call: u32, start: u32, length: u32, buf: &[u8], slice: &[u8]) -> u32 {
    let at = begin(out, call, &[0, 0, start as u64, length as u64], 2, buf);
    reply::string(out, at, slice)
}
