// Whole contexts, in arrays of zeros.
use crate::read;
use cases_contexts::build;
use cases_shared::show;
use cases_text::table;
use std::io;

// A platform of 88 bytes, a kernel, and a third attribute with a header and nothing else.
fn with_third(count: u64, kind: u64, size: u64) -> [u8; 1024] {
    let mut buf = [0u8; 1024];
    build::head(&mut buf, count);
    build::platform_and_kernel(&mut buf, 88);
    build::header(&mut buf, 432, kind, size);
    buf
}

// The third attribute is a map of two ranges: the address and the size of each.
fn two_ranges(rt: &impl Print, row: &[u8]) -> io::Result<()> {
    let [first, first_size, second, second_size] = table::numbers::<4>(row);
    let mut buf = with_third(3, 3, 56);
    build::entry(&mut buf, 440, first, first_size, 1);
    build::entry(&mut buf, 464, second, second_size, 1);
    read(rt, table::label(row), &buf, 1024)
}

fn ranges(rt: &impl Print) -> io::Result<()> {
    table::try_rows(
        b"\
        ranges (0, 4096), (4096, 1): 0 4096 4096 1\n\
        ranges (0, 4097), (4096, 1): 0 4097 4096 1\n\
        range that ends at 2^64, then one at 0: 18446744073709547520 4096 0 0\n",
        |row| two_ranges(rt, row),
    )
}

// The third attribute is a map with one range: the map's size, and the range's address, size and type.
fn one_range(rt: &impl Print, row: &[u8]) -> io::Result<()> {
    let [map_size, address, size, kind] = table::numbers::<4>(row);
    let mut buf = with_third(3, 3, map_size);
    build::entry(&mut buf, 440, address, size, kind);
    read(rt, table::label(row), &buf, 1024)
}

fn range(rt: &impl Print) -> io::Result<()> {
    table::try_rows(
        b"\
        range at 2^64 - 4096, size 4096: 32 18446744073709547520 4096 1\n\
        range at 2^64 - 4096, size 4097: 32 18446744073709547520 4097 1\n\
        range at 2^64 - 4096, size 8192: 32 18446744073709547520 8192 1\n\
        map of 40 bytes: 40 0 4096 1\n\
        map type 2^32: 32 0 4096 4294967296\n\
        map type 0: 32 0 4096 0\n",
        |row| one_range(rt, row),
    )
}

// Three attributes of 16 bytes after the kernel: the count, and their types.
fn three_types(rt: &impl Print, row: &[u8]) -> io::Result<()> {
    let [count, first, second, third] = table::numbers::<4>(row);
    let mut buf = with_third(count, first, 16);
    build::header(&mut buf, 448, second, 16);
    build::header(&mut buf, 464, third, 16);
    read(rt, table::label(row), &buf, 1024)
}

fn types(rt: &impl Print) -> io::Result<()> {
    table::try_rows(
        b"\
        types 1, 2, 7, 7: 4 7 7 0\n\
        types 1, 2, 7, 8, 7: 5 7 8 7\n\
        types 1, 2, 5, 8, 5: 5 5 8 5\n",
        |row| three_types(rt, row),
    )
}

// A platform with the kernel right after it: the platform's size, and how many bytes are read.
fn platform(rt: &impl Print, row: &[u8]) -> io::Result<()> {
    let [size, length] = table::numbers::<2>(row);
    let mut buf = [0u8; 1024];
    build::head(&mut buf, 2);
    build::platform_and_kernel(&mut buf, size);
    read(rt, table::label(row), &buf, length)
}

fn platforms(rt: &impl Print) -> io::Result<()> {
    table::try_rows(
        b"\
        platform of 56 bytes: 56 400\n\
        platform of 48 bytes: 48 1024\n\
        room that ends with the kernel: 88 432\n\
        room one byte short of the kernel's end: 88 431\n",
        |row| platform(rt, row),
    )
}

// The third attribute's type and size.
fn third(rt: &impl Print, row: &[u8]) -> io::Result<()> {
    let [kind, size] = table::numbers::<2>(row);
    let buf = with_third(3, kind, size);
    read(rt, table::label(row), &buf, 1024)
}

fn thirds(rt: &impl Print) -> io::Result<()> {
    table::try_rows(
        b"\
        size 0: 7 0\n\
        size 4294967288: 7 4294967288\n\
        size 4294967295: 7 4294967295\n\
        map of 8 bytes: 3 8\n\
        map of 16 bytes: 3 16\n\
        module of 88 bytes: 4 88\n\
        command line of 8 bytes: 5 8\n\
        command line of 16 bytes: 5 16\n\
        framebuffer of 24 bytes: 6 24\n",
        |row| third(rt, row),
    )
}

fn read_long(rt: &impl Print, label: &[u8], buf: &[u8; 1024], long: &mut [u8]) -> io::Result<()> {
    if 1024 <= long.len() {
        byte_layout::store(buf, long, 0);
        show::reading(rt, label, ultra_reading::read(long))?;
    }
    Ok(())
}

// The same in a buffer of 70,000 bytes.
fn long_third(rt: &impl Print, row: &[u8]) -> io::Result<()> {
    let [kind, size] = table::numbers::<2>(row);
    let buf = with_third(3, kind, size);
    let mut long = [0u8; 70000];
    read_long(rt, table::label(row), &buf, &mut long)
}

fn long_thirds(rt: &impl Print) -> io::Result<()> {
    table::try_rows(
        b"\
        context that ends at 65536 of 70000: 7 65104\n\
        context that ends at 65544 of 70000: 7 65112\n",
        |row| long_third(rt, row),
    )
}

pub fn all(rt: &impl Print) -> io::Result<()> {
    ranges(rt)?;
    range(rt)?;
    types(rt)?;
    platforms(rt)?;
    thirds(rt)?;
    read(rt, b"no bytes", &[0u8; 1024], 0)?;
    long_thirds(rt)
}
