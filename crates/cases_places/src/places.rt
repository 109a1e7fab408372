// Each row is given what stands there, the room, and the type and the variant of what is added.
use crate::case;
use cases_text::table;
use std::io;

// First a platform, then a kernel, then neither.
fn first_and_second(rt: &impl Print) -> io::Result<()> {
    table::try_rows(
        b"\
        kernel first: 0 0 0 1024 2 0\n\
        map first: 0 0 0 1024 3 1\n\
        map of 4 numbers first: 0 0 0 1024 3 2\n\
        module first: 0 0 0 1024 4 0\n\
        line first: 0 0 0 1024 5 0\n\
        framebuffer first: 0 0 0 1024 6 0\n\
        platform second: 1 0 0 1024 1 0\n\
        map second: 1 0 0 1024 3 1\n\
        map of 4 numbers second: 1 0 0 1024 3 2\n\
        module second: 1 0 0 1024 4 0\n\
        line second: 1 0 0 1024 5 0\n\
        framebuffer second: 1 0 0 1024 6 0\n\
        platform third: 2 0 0 1024 1 0\n\
        platform of type 0 third: 2 0 0 1024 1 1\n\
        kernel third: 2 0 0 1024 2 0\n\
        kernel of partition type 0 third: 2 0 0 1024 2 1\n",
        |row| case(rt, row),
    )
}

// Types that stand once, and modules, which stand together.
fn repeats(rt: &impl Print) -> io::Result<()> {
    table::try_rows(
        b"\
        map after a map: 2 3 0 1024 3 1\n\
        map of 4 numbers after a map: 2 3 0 1024 3 2\n\
        map after a map and a line: 2 3 5 1024 3 1\n\
        line after a line: 2 5 0 1024 5 0\n\
        line with byte 128 after a line: 2 5 0 1024 5 1\n\
        line after a line and a map: 2 5 3 1024 5 0\n\
        framebuffer after a framebuffer: 2 6 0 1024 6 0\n\
        framebuffer of format 0 after a framebuffer: 2 6 0 1024 6 1\n\
        framebuffer after a framebuffer and a map: 2 6 3 1024 6 0\n\
        module after a framebuffer: 2 6 0 1024 4 0\n\
        module after a module: 2 4 0 1024 4 0\n\
        module after a module and a framebuffer: 2 4 6 1024 4 0\n\
        module of type 0 after a module and a framebuffer: 2 4 6 1024 4 1\n",
        |row| case(rt, row),
    )
}

fn rooms(rt: &impl Print) -> io::Result<()> {
    table::try_rows(
        b"\
        platform in 96 bytes: 0 0 0 96 1 0\n\
        platform in 95 bytes: 0 0 0 95 1 0\n\
        platform of type 0 in 95 bytes: 0 0 0 95 1 1\n\
        kernel in 432 bytes: 1 0 0 432 2 0\n\
        kernel in 431 bytes: 1 0 0 431 2 0\n\
        kernel, end above 2^64, in 431 bytes: 1 0 0 431 2 2\n\
        map of no entries in 440 bytes: 2 0 0 440 3 0\n\
        map of no entries in 439 bytes: 2 0 0 439 3 0\n\
        map of one entry in 464 bytes: 2 0 0 464 3 1\n\
        map of one entry in 463 bytes: 2 0 0 463 3 1\n\
        map of 4 numbers in 439 bytes: 2 0 0 439 3 2\n\
        map, wrong order, in 439 bytes: 2 0 0 439 3 3\n",
        |row| case(rt, row),
    )
}

// In fewer bytes than the context has, reading refuses it.
fn more_rooms(rt: &impl Print) -> io::Result<()> {
    table::try_rows(
        b"\
        module in 528 bytes: 2 0 0 528 4 0\n\
        module in 527 bytes: 2 0 0 527 4 0\n\
        module, bad name, in 527 bytes: 2 0 0 527 4 2\n\
        line of 7 bytes in 448 bytes: 2 0 0 448 5 2\n\
        line of 7 bytes in 447 bytes: 2 0 0 447 5 2\n\
        line of 8 bytes in 456 bytes: 2 0 0 456 5 3\n\
        line of 8 bytes in 455 bytes: 2 0 0 455 5 3\n\
        line with byte 128 in 447 bytes: 2 0 0 447 5 1\n\
        framebuffer in 464 bytes: 2 0 0 464 6 0\n\
        framebuffer in 463 bytes: 2 0 0 463 6 0\n\
        framebuffer in 432 bytes: 2 0 0 432 6 0\n\
        framebuffer in 431 bytes: 2 0 0 431 6 0\n\
        framebuffer in 7 bytes: 2 0 0 7 6 0\n\
        framebuffer in 0 bytes: 2 0 0 0 6 0\n",
        |row| case(rt, row),
    )
}

pub fn all(rt: &impl Print) -> io::Result<()> {
    first_and_second(rt)?;
    repeats(rt)?;
    rooms(rt)?;
    more_rooms(rt)
}
