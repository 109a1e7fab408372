// The memory map, added after a platform and a kernel.
use cases_adds::context;
use cases_text::table;
use std::io;

// The numbers of its entries: address, size and type of each.
fn map(rt: &impl Print, row: &[u8]) -> io::Result<()> {
    let mut space = [0; 6];
    let count = table::put_numbers(row, &mut space);
    let numbers = &space[..count];
    cases_adds::add(rt, table::label(row), context::kernel(), |buf| {
        ultra_building::add_map(buf, numbers)
    })
}

fn order_and_range(rt: &impl Print) -> io::Result<()> {
    table::try_rows(
        b"\
        map (0, 4096), (4096, 1): 0 4096 1 4096 1 1\n\
        map (0, 4097), (4096, 1): 0 4097 1 4096 1 1\n\
        map (0, 8192), (4096, 1): 0 8192 1 4096 1 1\n\
        map of two empty entries at 5: 5 0 1 5 0 1\n\
        map, 0 bytes at 0 after an end at 2^64: 18446744073709547520 4096 1 0 0 1\n\
        map, 0 bytes at 2^64 - 1 after an end at 2^64: 18446744073709547520 4096 1 18446744073709551615 0 1\n\
        map, 4096 bytes at 2^64 - 4096: 18446744073709547520 4096 1\n\
        map, 4097 bytes at 2^64 - 4096: 18446744073709547520 4097 1\n\
        map, 2^64 - 1 bytes at 1: 1 18446744073709551615 1\n\
        map, 2^64 - 1 bytes at 2: 2 18446744073709551615 1\n",
        |row| map(rt, row),
    )
}

// In the last three, all entries are tried for a rule before the next rule.
fn value_and_form(rt: &impl Print) -> io::Result<()> {
    table::try_rows(
        b"\
        map of type 0: 4096 4096 0\n\
        map of type 4294967296: 4096 4096 4294967296\n\
        map of type 2^64 - 1: 4096 4096 18446744073709551615\n\
        map of no entries:\n\
        map of 1 number: 4096\n\
        map of 2 numbers: 4096 4096\n\
        map of 4 numbers: 4096 4096 1 8192\n\
        map of 4 numbers, type 0: 4096 4096 0 8192\n\
        map, wrong order, then type 0: 0 4097 1 4096 1 0\n\
        map, wrong order, then an end above 2^64: 0 4097 1 4096 18446744073709551615 1\n\
        map, end above 2^64, then type 0: 18446744073709547520 4097 1 0 0 0\n",
        |row| map(rt, row),
    )
}

pub fn all(rt: &impl Print) -> io::Result<()> {
    order_and_range(rt)?;
    value_and_form(rt)
}
