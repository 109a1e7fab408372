// The map copied out.
use cases_contexts::build;
use cases_shared::show;
use cases_text::{print, table};
use std::io;

// Lends the first `length` numbers of the output.
fn copy_to(rt: &impl Print, buf: &[u8; 1024], out: &mut [u64], length: u64) -> io::Result<()> {
    match out.get_mut(..length as usize) {
        Some(lent) => show::answer(rt, ultra_questions::copy_map(buf, lent)),
        None => Ok(()),
    }
}

// Lends the first of eight sevens, as many as the row says, and shows all eight afterwards.
fn copy(rt: &impl Print, row: &[u8], buf: &[u8; 1024]) -> io::Result<()> {
    let [length] = table::numbers::<1>(row);
    let mut out = [7u64; 8];
    print::words(rt, table::label(row))?;
    copy_to(rt, buf, &mut out, length)?;
    print::words(rt, b", output")?;
    print::numbers(rt, &out)?;
    print::words(rt, b"\n")
}

// A map of two ranges at 432, the second of a type whose low 32 bits are 0.
fn map_of_two(count: u64) -> [u8; 1024] {
    let mut buf = [0u8; 1024];
    build::head(&mut buf, count);
    build::platform_and_kernel(&mut buf, 88);
    build::header(&mut buf, 432, 3, 56);
    build::entry(&mut buf, 440, 4096, 8192, 1);
    build::entry(&mut buf, 464, 16384, 100, 4294967296);
    buf
}

fn of_two(rt: &impl Print, row: &[u8]) -> io::Result<()> {
    copy(rt, row, &map_of_two(3))
}

fn none(rt: &impl Print, row: &[u8]) -> io::Result<()> {
    let mut buf = [0u8; 1024];
    build::head(&mut buf, 3);
    build::platform_and_kernel(&mut buf, 88);
    build::module(&mut buf, 432, 4096, 1);
    copy(rt, row, &buf)
}

fn of_none(rt: &impl Print, row: &[u8]) -> io::Result<()> {
    let mut buf = [0u8; 1024];
    build::head(&mut buf, 3);
    build::platform_and_kernel(&mut buf, 88);
    build::header(&mut buf, 432, 3, 8);
    copy(rt, row, &buf)
}

// The map itself is sound, and what follows it is refused.
fn and_type_zero(rt: &impl Print, row: &[u8]) -> io::Result<()> {
    let mut buf = map_of_two(4);
    build::header(&mut buf, 488, 0, 8);
    copy(rt, row, &buf)
}

fn lengths(rt: &impl Print) -> io::Result<()> {
    table::try_rows(
        b"\
        two ranges into 0: 0\n\
        two ranges into 5: 5\n\
        two ranges into 6: 6\n\
        two ranges into 7: 7\n\
        two ranges into 8: 8\n",
        |row| of_two(rt, row),
    )?;
    table::try_rows(
        b"\
        no map into 8: 8\n\
        no map into 0: 0\n",
        |row| none(rt, row),
    )?;
    table::try_rows(
        b"\
        no ranges into 0: 0\n\
        no ranges into 8: 8\n",
        |row| of_none(rt, row),
    )?;
    table::try_rows(
        b"\
        fourth of type 0 into 8: 8\n\
        fourth of type 0 into 0: 0\n",
        |row| and_type_zero(rt, row),
    )
}

// A map after a module; its types need 64 bits, and so do an address and a size.
fn after_a_module(rt: &impl Print, row: &[u8]) -> io::Result<()> {
    let mut buf = [0u8; 1024];
    build::head(&mut buf, 4);
    build::platform_and_kernel(&mut buf, 88);
    build::module(&mut buf, 432, 4096, 1);
    build::header(&mut buf, 528, 3, 56);
    build::entry(&mut buf, 536, 0, 9223372036854775808, 18446744073709551615);
    build::entry(&mut buf, 560, 18446744073709551615, 1, 9223372036854775809);
    copy(rt, row, &buf)
}

pub fn all(rt: &impl Print) -> io::Result<()> {
    lengths(rt)?;
    table::try_rows(
        b"types of 64 bits after a module into 6: 6\n",
        |row| after_a_module(rt, row),
    )
}
