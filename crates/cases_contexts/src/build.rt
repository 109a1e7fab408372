// Contexts by hand, byte for byte after document 01's table: the library's own adds are not used here.
use cases_text::table;

pub fn put_byte(buf: &mut [u8; 1024], at: usize, byte: u8) {
    if at < 1024 {
        buf[at] = byte;
    }
}

// The lowest 1, 2, 4 or 8 bytes of the number, lowest first.
pub fn put(buf: &mut [u8; 1024], at: u64, width: u64, number: u64) {
    let place = at as usize;
    if 1016 < place {
        return;
    }
    match width {
        1 => put_byte(buf, place, (number % 256) as u8),
        2 => words::store_u16(buf, place, (number % 65536) as u16),
        4 => words::store_u32(buf, place, (number % 4294967296) as u32),
        _ => words::store_u64(buf, place, number),
    }
}

// Each row is given where, of how many bytes, and which number.
pub fn put_rows(buf: &mut [u8; 1024], table: &[u8]) {
    for row in table.split_inclusive(|b| *b == b'\n') {
        let [at, width, number] = table::numbers::<3>(row);
        put(buf, at, width, number);
    }
}

// The bytes as they are, as a text or a GUID.
pub fn put_bytes(buf: &mut [u8; 1024], at: u64, bytes: &[u8]) {
    let place = at as usize;
    if place < 900 {
        if bytes.len() < 100 {
            byte_layout::store(bytes, buf, place);
        }
    }
}

// Version 1.0 and a count.
pub fn head(buf: &mut [u8; 1024], count: u64) {
    put(buf, 0, 1, 1);
    put(buf, 4, 4, count);
}

pub fn header(buf: &mut [u8; 1024], at: u64, kind: u64, size: u64) {
    if at < 1016 {
        put(buf, at, 4, kind);
        put(buf, at + 4, 4, size);
    }
}

// A platform of `size` bytes at 8, and a kernel of 336 after it.
pub fn platform_and_kernel(buf: &mut [u8; 1024], size: u64) {
    header(buf, 8, 1, size);
    put(buf, 16, 4, 2);
    put(buf, 24, 1, 102);
    if size < 256 {
        let kernel = 8 + size;
        header(buf, kernel, 2, 336);
        put(buf, kernel + 32, 8, 2);
        put(buf, kernel + 80, 1, 47);
    }
}

pub fn entry(buf: &mut [u8; 1024], at: u64, address: u64, size: u64, kind: u64) {
    if at < 900 {
        put(buf, at, 8, address);
        put(buf, at + 8, 8, size);
        put(buf, at + 16, 8, kind);
    }
}

// A module of 96 bytes whose name is one letter.
pub fn module(buf: &mut [u8; 1024], at: u64, address: u64, size: u64) {
    if at < 900 {
        header(buf, at, 4, 96);
        put(buf, at + 12, 4, 1);
        put(buf, at + 16, 1, 109);
        put(buf, at + 80, 8, address);
        put(buf, at + 88, 8, size);
    }
}
