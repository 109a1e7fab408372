// A framebuffer, added after a platform and a kernel.
use cases_adds::context;
use cases_text::table;
use std::io;
use ultra_format::FramebufferRecord;

// Its width, height, pitch, bpp, format and address.
fn members(rt: &impl Print, row: &[u8]) -> io::Result<()> {
    let [width, height, pitch, bpp, format, address] = table::numbers::<6>(row);
    let record = FramebufferRecord {
        width: (width % 4294967296) as u32,
        height: (height % 4294967296) as u32,
        pitch: (pitch % 4294967296) as u32,
        bpp: (bpp % 65536) as u16,
        format: (format % 65536) as u16,
        address,
    };
    cases_adds::add(rt, table::label(row), context::kernel(), |buf| {
        ultra_building::add_framebuffer(buf, record)
    })
}

fn pixels(rt: &impl Print) -> io::Result<()> {
    table::try_rows(
        b"\
        framebuffer: 1024 768 4100 32 3 3489660928\n\
        framebuffer of format 0, 24 bits: 1024 768 4100 24 0 3489660928\n\
        framebuffer of format 0, 32 bits: 1024 768 4100 32 0 3489660928\n\
        framebuffer of format 1, 24 bits: 1024 768 4100 24 1 3489660928\n\
        framebuffer of format 1, 32 bits: 1024 768 4100 32 1 3489660928\n\
        framebuffer of format 2, 24 bits: 1024 768 4100 24 2 3489660928\n\
        framebuffer of format 2, 32 bits: 1024 768 4100 32 2 3489660928\n\
        framebuffer of format 3, 24 bits: 1024 768 4100 24 3 3489660928\n\
        framebuffer of format 4, 24 bits: 1024 768 4100 24 4 3489660928\n\
        framebuffer of format 4, 32 bits: 1024 768 4100 32 4 3489660928\n\
        framebuffer of format 5, 24 bits: 1024 768 4100 24 5 3489660928\n\
        framebuffer of format 5, 32 bits: 1024 768 4100 32 5 3489660928\n",
        |row| members(rt, row),
    )
}

// In the last, two rules are broken; the lower number is given.
fn rows_and_ends(rt: &impl Print) -> io::Result<()> {
    table::try_rows(
        b"\
        framebuffer of width 3, 24 bits, pitch 9: 3 768 9 24 1 3489660928\n\
        framebuffer of width 3, 24 bits, pitch 8: 3 768 8 24 1 3489660928\n\
        framebuffer of width 1024, pitch 4096: 1024 1 4096 32 3 3489660928\n\
        framebuffer of width 1024, pitch 4095: 1024 1 4095 32 3 3489660928\n\
        framebuffer of width 2^27, pitch 0: 134217728 1 0 32 3 3489660928\n\
        framebuffer of width, pitch and height 0: 0 0 0 32 3 3489660928\n\
        framebuffer, end at 2^64: 1024 1 4096 32 3 18446744073709547520\n\
        framebuffer, end a row above 2^64: 1024 2 4096 32 3 18446744073709547520\n\
        framebuffer, greatest pitch and height at 2^33 - 1: 1024 4294967295 4294967295 32 3 8589934591\n\
        framebuffer, greatest pitch and height at 2^33: 1024 4294967295 4294967295 32 3 8589934592\n\
        framebuffer of format 0, end above 2^64: 1024 768 4100 32 0 18446744073709551615\n",
        |row| members(rt, row),
    )
}

pub fn all(rt: &impl Print) -> io::Result<()> {
    pixels(rt)?;
    rows_and_ends(rt)
}
