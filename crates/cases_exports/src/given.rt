// Contexts by hand after document 01's table, an attribute after the other: each function answers where the next one goes.

// The number in eight bytes, where there is room.
fn put(buf: &mut [u8], at: usize, number: u64) {
    if buf.len() < 8 {
        return;
    }
    if at <= buf.len() - 8 {
        words::store_u64(buf, at, number);
    }
}

fn after(at: usize, size: u64) -> usize {
    at.saturating_add(size as usize)
}

// `n` bytes of the letter a.
fn letters(buf: &mut [u8], at: usize, n: u64) {
    for byte in buf.iter_mut().skip(at).take(n as usize) {
        *byte = b'a';
    }
}

fn attribute(buf: &mut [u8], at: usize, kind: u64, size: u64) {
    if size < 4294967296 {
        put(buf, at, kind % 4294967296 + 4294967296 * size);
    }
}

// Version 1.0 with a count, a platform of 56 bytes whose loader's name is "f", and a kernel.
pub fn front(buf: &mut [u8], count: u64, rsdp: u64) -> usize {
    put(buf, 0, 1 + 4294967296 * (count % 4294967296));
    attribute(buf, 8, 1, 56);
    put(buf, 16, 1);
    put(buf, 24, 102);
    put(buf, 56, rsdp);
    attribute(buf, 64, 2, 336);
    put(buf, 96, 2);
    put(buf, 144, 47);
    400
}

pub fn entry(buf: &mut [u8], at: usize, address: u64, size: u64, kind: u64) {
    put(buf, at, address);
    put(buf, after(at, 8), size);
    put(buf, after(at, 16), kind);
}

// The free page of that index, in the map whose entries start at `at`.
fn page(buf: &mut [u8], at: usize, index: u64) {
    if index < 2000 {
        entry(buf, after(at, 24 * index), 4096 * index + 4096, 4096, 1);
    }
}

// A map of `n` free pages, from 4,096 on.
pub fn map(buf: &mut [u8], at: usize, n: u64) -> usize {
    if 2000 < n {
        return at;
    }
    attribute(buf, at, 3, 8 + 24 * n);
    for i in 0..n {
        page(buf, after(at, 8), i);
    }
    after(at, 8 + 24 * n)
}

// A module of 4,097 bytes, whose name has `n` letters, at the page of the same number.
pub fn module(buf: &mut [u8], at: usize, n: u64) -> usize {
    attribute(buf, at, 4, 96);
    put(buf, after(at, 8), 4294967296);
    letters(buf, after(at, 16), n % 64);
    put(buf, after(at, 80), 4096 * (n % 64));
    put(buf, after(at, 88), 4097);
    after(at, 96)
}

// `n` modules with names of 63 letters.
pub fn modules(buf: &mut [u8], first: usize, n: u64) -> usize {
    let mut at = first;
    for _ in 0..n {
        at = module(buf, at, 63);
    }
    at
}

// A command line of `n` letters.
pub fn line(buf: &mut [u8], at: usize, n: u64) -> usize {
    if 1000 < n {
        return at;
    }
    let size = 16 + n / 8 * 8;
    attribute(buf, at, 5, size);
    letters(buf, after(at, 8), n);
    after(at, size)
}

// 640 by 480 with 32 bits to a pixel.
pub fn framebuffer(buf: &mut [u8], at: usize) -> usize {
    attribute(buf, at, 6, 32);
    put(buf, after(at, 8), 640 + 4294967296 * 480);
    put(
        buf,
        after(at, 16),
        2560 + 4294967296 * 32 + 281474976710656 * 3,
    );
    put(buf, after(at, 24), 4096);
    after(at, 32)
}

// An attribute of a vendor's type.
pub fn other(buf: &mut [u8], at: usize) -> usize {
    attribute(buf, at, 7, 8);
    after(at, 8)
}
