// A payload by hand, byte for byte after document 002, and what a row changes of it. What is written is lent from it too: its records, and its
// bytes as the run.
use cases_contexts::build;
use refusals::Refusal;

// FREE at 16, FILE at 48, CMDLINE at 80 and END at 112; a table of 28 bytes at 144; 172 bytes, and 165s after them.
pub fn payload() -> [u8; 1024] {
    let mut buf = [165u8; 1024];
    build::put_rows(
        &mut buf,
        b"\
        magic 0xc001b001: 0 4 3221336065\n\
        agent: 4 4 0\n\
        size: 8 4 172\n\
        count: 12 4 4\n\
        FREE and its flags: 16 8 0\n\
        its start: 24 8 1234605616436508552\n\
        its size: 32 8 72623859790382856\n\
        its words at 24 and 28: 40 8 0\n\
        FILE and its flags: 48 8 3418582331\n\
        its start: 56 8 2097152\n\
        its size: 64 8 65537\n\
        its name: 72 4 6\n\
        its meta: 76 4 19\n\
        CMDLINE and its flags: 80 8 1129398468\n\
        its start: 88 8 0\n\
        its size: 96 8 0\n\
        its word at 24: 104 4 0\n\
        its meta: 108 4 22\n\
        END and its flags: 112 8 4294967295\n\
        its start: 120 8 0\n\
        its size: 128 8 0\n\
        its words at 24 and 28: 136 8 0\n",
    );
    build::put_bytes(&mut buf, 144, b"frost\0/boot/initrd\0{}\0quiet\0");
    buf
}

// How wide the word at this place is: of the table, a byte.
fn width(at: u64) -> u64 {
    if at < 16 {
        return 4;
    }
    if 144 <= at {
        return 1;
    }
    match at % 32 {
        0 | 24 => 8,
        _ => 4,
    }
}

// The pair 0, 0 is one that the row does not have.
fn put(buf: &mut [u8; 1024], at: u64, number: u64) {
    if at != 0 || number != 0 {
        build::put(buf, at, width(at), number);
    }
}

// The payload with up to three other words, each at its place.
pub fn changed(pairs: [u64; 6]) -> [u8; 1024] {
    let mut buf = payload();
    put(&mut buf, pairs[0], pairs[1]);
    put(&mut buf, pairs[2], pairs[3]);
    put(&mut buf, pairs[4], pairs[5]);
    buf
}

// The start and the length of the agent's string, then of each record's name and meta, those of a string that is not named past any run; then
// how many bytes of the records, how many of these numbers and how many bytes of the run are lent; the room; an index.
pub fn numbers() -> [u64; 23] {
    let none = 18446744073709551615;
    [
        144, 5, none, none, none, none, 150, 12, 163, 2, none, none, 166, 5, none, none, none,
        none, 128, 18, 1024, 1024, 0,
    ]
}

// The places from 2000 on are those of these numbers.
fn put_number(numbers: &mut [u64; 23], at: u64, number: u64) {
    if 2000 <= at && at < 2023 {
        numbers[at as usize - 2000] = number;
    }
}

pub fn changed_numbers(before: [u64; 23], pairs: [u64; 6]) -> [u64; 23] {
    let mut after = before;
    put_number(&mut after, pairs[0], pairs[1]);
    put_number(&mut after, pairs[2], pairs[3]);
    put_number(&mut after, pairs[4], pairs[5]);
    after
}

// So many bytes from `start` on; none where there are fewer.
pub fn part(bytes: &[u8], start: usize, length: u64) -> &[u8] {
    match bytes.get(start..) {
        Some(rest) => rest.get(..length as usize).unwrap_or(b""),
        None => b"",
    }
}

fn first_numbers(numbers: &[u64], length: u64) -> &[u64] {
    numbers.get(..length as usize).unwrap_or(&[])
}

// Writes what the numbers lend of the payload.
pub fn write(to: &mut [u8], from: &[u8], numbers: [u64; 23]) -> Result<u32, Refusal> {
    let records = numbers[18];
    let count = numbers[19];
    let run = numbers[20];
    let room = numbers[21] as usize;
    if to.len() < room {
        return Ok(0);
    }
    handover_writing::write(
        &mut to[0..room],
        part(from, 16, records),
        first_numbers(&numbers, count),
        part(from, 0, run),
    )
}
