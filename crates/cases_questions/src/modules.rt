// Which module holds an address.
use cases_contexts::build;
use cases_shared::show;
use cases_text::{print, table};
use std::io;

fn ask(rt: &impl Print, label: &[u8], buf: &[u8; 1024], address: u64) -> io::Result<()> {
    print::words(rt, label)?;
    print!(rt; ", address {address}")?;
    show::answer(rt, ultra_questions::module_holding(buf, address))?;
    print::words(rt, b"\n")
}

fn with_one(count: u64, address: u64, size: u64) -> [u8; 1024] {
    let mut buf = [0u8; 1024];
    build::head(&mut buf, count);
    build::platform_and_kernel(&mut buf, 88);
    build::module(&mut buf, 432, address, size);
    buf
}

// The module's address and size, and the address asked for.
fn one(rt: &impl Print, row: &[u8]) -> io::Result<()> {
    let [address, size, asked] = table::numbers::<3>(row);
    ask(rt, table::label(row), &with_one(3, address, size), asked)
}

fn ones(rt: &impl Print) -> io::Result<()> {
    table::try_rows(
        b"\
        module of 5000 at 2097152: 2097152 5000 2097151\n\
        module of 5000 at 2097152: 2097152 5000 2097152\n\
        module of 5000 at 2097152: 2097152 5000 2102151\n\
        module of 5000 at 2097152: 2097152 5000 2102152\n\
        module of 5000 at 2097152: 2097152 5000 2105343\n\
        module of 5000 at 2097152: 2097152 5000 2105344\n\
        module of 5000 at 2097152: 2097152 5000 4297064448\n\
        module of 0 at 4096: 4096 0 4095\n\
        module of 0 at 4096: 4096 0 4096\n\
        module of 0 at 4096: 4096 0 8191\n\
        module of 1 at 4096: 4096 1 4095\n\
        module of 1 at 4096: 4096 1 4096\n\
        module of 1 at 4096: 4096 1 8191\n\
        module of 1 at 4096: 4096 1 8192\n\
        module of 4095 at 4096: 4096 4095 8191\n\
        module of 4095 at 4096: 4096 4095 8192\n\
        module of 4096 at 4096: 4096 4096 8191\n\
        module of 4096 at 4096: 4096 4096 8192\n\
        module of 4097 at 8192: 8192 4097 8191\n\
        module of 4097 at 8192: 8192 4097 8192\n\
        module of 4097 at 8192: 8192 4097 16383\n\
        module of 4097 at 8192: 8192 4097 16384\n\
        module that ends at 2^64: 18446744073709547520 4096 18446744073709547519\n\
        module that ends at 2^64: 18446744073709547520 4096 18446744073709547520\n\
        module that ends at 2^64: 18446744073709547520 4096 18446744073709551615\n\
        module that ends at 2^64: 18446744073709547520 4096 0\n\
        module of 1 in the last page: 18446744073709547520 1 18446744073709547519\n\
        module of 1 in the last page: 18446744073709547520 1 18446744073709551615\n\
        module of 1 in the last page: 18446744073709547520 1 0\n\
        module of 0 in the last page: 18446744073709547520 0 18446744073709551615\n\
        module from 4096 into the last page: 4096 18446744073709543425 4095\n\
        module from 4096 into the last page: 4096 18446744073709543425 18446744073709547520\n\
        module from 4096 into the last page: 4096 18446744073709543425 18446744073709551615\n\
        module of 2^64 - 4096 at 0: 0 18446744073709547520 18446744073709547519\n\
        module of 2^64 - 4096 at 0: 0 18446744073709547520 18446744073709547520\n\
        module of 2^64 - 4095 at 0: 0 18446744073709547521 0\n\
        module of 2^64 - 4095 at 0: 0 18446744073709547521 18446744073709551615\n\
        module of 2^64 - 1 at 0: 0 18446744073709551615 0\n\
        module of 2^64 - 1 at 0: 0 18446744073709551615 18446744073709551614\n\
        module of 2^64 - 1 at 0: 0 18446744073709551615 18446744073709551615\n",
        |row| one(rt, row),
    )
}

fn with_two(first: u64, first_size: u64, second: u64, second_size: u64) -> [u8; 1024] {
    let mut buf = with_one(4, first, first_size);
    build::module(&mut buf, 528, second, second_size);
    buf
}

// The address and the size of each of two modules, and the address asked for.
fn two(rt: &impl Print, row: &[u8]) -> io::Result<()> {
    let [first, first_size, second, second_size, asked] = table::numbers::<5>(row);
    let buf = with_two(first, first_size, second, second_size);
    ask(rt, table::label(row), &buf, asked)
}

fn twos(rt: &impl Print) -> io::Result<()> {
    table::try_rows(
        b"\
        second starts lower: 8192 8192 4096 8192 4095\n\
        second starts lower: 8192 8192 4096 8192 4096\n\
        second starts lower: 8192 8192 4096 8192 8191\n\
        second starts lower: 8192 8192 4096 8192 8192\n\
        second starts lower: 8192 8192 4096 8192 12287\n\
        second starts lower: 8192 8192 4096 8192 16383\n\
        second starts lower: 8192 8192 4096 8192 16384\n\
        first starts lower: 4096 8192 8192 8192 8191\n\
        first starts lower: 4096 8192 8192 8192 8192\n\
        first starts lower: 4096 8192 8192 8192 12287\n\
        first starts lower: 4096 8192 8192 8192 12288\n\
        first is empty: 4096 0 4096 1 4096\n\
        first by its tail: 4096 4097 8192 8192 8193\n\
        first by its tail: 4096 4097 8192 8192 12287\n\
        first by its tail: 4096 4097 8192 8192 12288\n\
        one page after the other: 4096 1 8192 1 8191\n\
        one page after the other: 4096 1 8192 1 8192\n\
        one page after the other: 4096 1 8192 1 12287\n\
        one page after the other: 4096 1 8192 1 12288\n",
        |row| two(rt, row),
    )
}

// In place of the first module an attribute of type 7 with the same bytes.
fn seven_and_module(rt: &impl Print, row: &[u8]) -> io::Result<()> {
    let [asked] = table::numbers::<1>(row);
    let mut buf = with_two(8192, 8192, 12288, 8192);
    build::header(&mut buf, 432, 7, 96);
    ask(rt, table::label(row), &buf, asked)
}

// The kernel's bytes 80..95, where a module has its address and size, hold 47 and 4096; and the module is past the count.
fn none(rt: &impl Print, row: &[u8]) -> io::Result<()> {
    let [asked] = table::numbers::<1>(row);
    let mut buf = with_one(2, 4096, 4096);
    build::put(&mut buf, 184, 8, 4096);
    ask(rt, table::label(row), &buf, asked)
}

// The first module is sound and holds the address, and what follows it is refused.
fn and_type_zero(rt: &impl Print, row: &[u8]) -> io::Result<()> {
    let [asked] = table::numbers::<1>(row);
    let mut buf = with_one(4, 4096, 4096);
    build::header(&mut buf, 528, 0, 8);
    ask(rt, table::label(row), &buf, asked)
}

fn others(rt: &impl Print) -> io::Result<()> {
    table::try_rows(
        b"\
        type 7 that looks like a module: 8192\n\
        type 7 that looks like a module: 12288\n",
        |row| seven_and_module(rt, row),
    )?;
    table::try_rows(
        b"\
        no module: 0\n\
        no module: 47\n\
        no module: 4096\n",
        |row| none(rt, row),
    )?;
    table::try_rows(
        b"\
        fourth of type 0: 4096\n\
        fourth of type 0: 0\n",
        |row| and_type_zero(rt, row),
    )
}

pub fn all(rt: &impl Print) -> io::Result<()> {
    ones(rt)?;
    twos(rt)?;
    others(rt)
}
