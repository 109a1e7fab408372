// Contexts on both sides of document 01's rules on members, 12 to 16: one context with a number or a byte put over it. Adding runs the
// same rules in cases_adding.
use crate::read;
use cases_contexts::build;
use cases_text::table;
use std::io;

// A platform, a kernel, a module, a command line and a framebuffer, in 576 bytes. Each text fills its field up to the closing zero, at 55,
// 431, 511 and 543: what is not written is a slash. The kernel has 8,192 bytes, the module one at 4,096.
fn base() -> [u8; 1024] {
    let mut buf = [b'/'; 1024];
    build::put_rows(
        &mut buf,
        b"\
        version 1.0: 0 2 1\n\
        count: 4 4 5\n\
        platform: 8 4 1\n\
        its size: 12 4 88\n\
        its name's end: 55 1 0\n\
        kernel: 96 4 2\n\
        its size: 100 4 336\n\
        its physical base: 104 8 0\n\
        its virtual base: 112 8 0\n\
        its size in memory: 120 8 8192\n\
        its path's end: 431 1 0\n\
        module: 432 4 4\n\
        its size: 436 4 96\n\
        its type: 444 4 1\n\
        its name: 448 1 109\n\
        its name's end: 511 1 0\n\
        its address: 512 8 4096\n\
        its size in memory: 520 8 1\n\
        command line: 528 4 5\n\
        its size: 532 4 16\n\
        its text's end: 543 1 0\n\
        framebuffer: 544 4 6\n\
        its size: 548 4 32\n\
        its width: 552 4 1\n\
        its height: 556 4 1\n\
        its pitch: 560 4 4\n\
        its bits: 564 2 32\n\
        its format: 566 2 3\n\
        its address: 568 8 0\n",
    );
    buf
}

// A number of 8 bytes: where, and which.
fn number(rt: &impl Print, row: &[u8]) -> io::Result<()> {
    let [at, number] = table::numbers::<2>(row);
    let mut buf = base();
    build::put(&mut buf, at, 8, number);
    read(rt, table::label(row), &buf, 1024)
}

// Two numbers of 4 bytes, one after the other: where, and which.
fn halves(rt: &impl Print, row: &[u8]) -> io::Result<()> {
    let [at, first, second] = table::numbers::<3>(row);
    let mut buf = base();
    build::header(&mut buf, at, first, second);
    read(rt, table::label(row), &buf, 1024)
}

// A framebuffer's pitch, bits and format.
fn pixels(rt: &impl Print, row: &[u8]) -> io::Result<()> {
    let [pitch, bits, format] = table::numbers::<3>(row);
    let mut buf = base();
    build::put(&mut buf, 560, 4, pitch);
    build::put(&mut buf, 564, 2, bits);
    build::put(&mut buf, 566, 2, format);
    read(rt, table::label(row), &buf, 1024)
}

// A byte: where, and which.
fn byte(rt: &impl Print, row: &[u8]) -> io::Result<()> {
    let [at, byte] = table::numbers::<2>(row);
    let mut buf = base();
    build::put(&mut buf, at, 1, byte);
    read(rt, table::label(row), &buf, 1024)
}

// The physical base is at 104, the virtual one at 112, the size at 120.
fn kernels(rt: &impl Print) -> io::Result<()> {
    table::try_rows(b"kernel of 328 bytes: 96 2 328\n", |row| halves(rt, row))?;
    table::try_rows(
        b"\
        kernel at physical 2048: 104 2048\n\
        kernel at physical 4096: 104 4096\n\
        kernel at physical 4097: 104 4097\n\
        kernel at virtual 2048: 112 2048\n\
        kernel at virtual 4096: 112 4096\n\
        kernel of size 2048: 120 2048\n\
        kernel of size 4096: 120 4096\n\
        kernel, physical end at 2^64: 104 18446744073709543424\n\
        kernel, physical end above: 104 18446744073709547520\n\
        kernel, virtual end at 2^64: 112 18446744073709543424\n\
        kernel, virtual end above: 112 18446744073709547520\n",
        |row| number(rt, row),
    )
}

// The type is at 444, after 4 reserved bytes; the address is at 512, the size at 520.
fn modules(rt: &impl Print) -> io::Result<()> {
    table::try_rows(
        b"\
        module of type 0: 440 0 0\n\
        module of type 2: 440 0 2\n\
        module of type 3: 440 0 3\n",
        |row| halves(rt, row),
    )?;
    table::try_rows(
        b"\
        module at 2048: 512 2048\n\
        module at 4096: 512 4096\n\
        module whose last page ends at 2^64: 520 18446744073709543425\n\
        module that ends at 2^64: 520 18446744073709547520\n\
        module that ends one past 2^64: 520 18446744073709547521\n",
        |row| number(rt, row),
    )
}

// The address is at 568.
fn framebuffers(rt: &impl Print) -> io::Result<()> {
    table::try_rows(
        b"\
        format 0, 24 bits: 4 24 0\n\
        format 0, 32 bits: 4 32 0\n\
        format 1, 24 bits: 4 24 1\n\
        format 2, 32 bits: 4 32 2\n\
        format 3, 24 bits: 4 24 3\n\
        format 3, 33 bits: 8 33 3\n\
        format 4, 32 bits: 4 32 4\n\
        format 5, 24 bits: 4 24 5\n\
        format 5, 32 bits: 4 32 5\n\
        pitch 3 for 32 bits: 3 32 3\n",
        |row| pixels(rt, row),
    )?;
    table::try_rows(
        b"\
        framebuffer that ends at 2^64: 568 18446744073709551612\n\
        framebuffer that ends one past 2^64: 568 18446744073709551613\n",
        |row| number(rt, row),
    )
}

fn texts(rt: &impl Print) -> io::Result<()> {
    table::try_rows(
        b"\
        platform name of 32 bytes: 55 47\n\
        path of 256 bytes: 431 47\n\
        module name closed at its last byte: 511 0\n\
        module name not closed: 511 47\n\
        command line not closed: 543 47\n\
        platform name with byte 127: 24 127\n\
        platform name with byte 128: 24 128\n\
        module name with byte 127: 448 127\n\
        module name with byte 128: 448 128\n\
        command line with byte 127: 536 127\n\
        command line with byte 128: 536 128\n\
        path with byte 255: 177 255\n\
        path without its slash: 176 98\n\
        path of 0 bytes: 176 0\n",
        |row| byte(rt, row),
    )
}

pub fn all(rt: &impl Print) -> io::Result<()> {
    kernels(rt)?;
    modules(rt)?;
    framebuffers(rt)?;
    texts(rt)
}
