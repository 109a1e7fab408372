// A module, added after a platform and a kernel.
use cases_adds::context;
use cases_shared::given;
use cases_text::table;
use std::io;
use ultra_format::ModuleRecord;

fn module(rt: &impl Print, label: &[u8], record: ModuleRecord) -> io::Result<()> {
    cases_adds::add(rt, label, context::kernel(), |buf| {
        ultra_building::add_module(buf, record)
    })
}

// Its type, address and size; and 1 for a name of bytes 128.
fn members(rt: &impl Print, row: &[u8]) -> io::Result<()> {
    let [kind, address, size, badly_named] = table::numbers::<4>(row);
    let mut record = given::module();
    record.kind = (kind % 4294967296) as u32;
    record.address = address;
    record.size = size;
    if badly_named == 1 {
        record.name = [128u8; 64];
    }
    module(rt, table::label(row), record)
}

fn places(rt: &impl Print) -> io::Result<()> {
    table::try_rows(
        b"\
        module: 1 16777216 123457\n\
        module of type 0: 0 16777216 123457\n\
        module of type 2: 2 16777216 123457\n\
        module of type 3: 3 16777216 123457\n\
        module at 4095: 1 4095 4096\n\
        module at 2048: 1 2048 4096\n\
        module at 4096: 1 4096 4096\n\
        module of 0 bytes at 0: 1 0 0\n\
        module, end at 2^64: 1 18446744073709547520 4096\n\
        module, end above 2^64: 1 18446744073709547520 4097\n",
        |row| members(rt, row),
    )
}

fn named(rt: &impl Print, row: &[u8]) -> io::Result<()> {
    let mut record = given::module();
    record.name = given::field(table::given(row));
    module(rt, table::label(row), record)
}

fn names(rt: &impl Print) -> io::Result<()> {
    table::try_rows(
        b"\
        module, name of 0 bytes: \n\
        module, name of 63 bytes: nnnnnnnnnnnnnnnnnnnnnnnnnnnnnnnnnnnnnnnnnnnnnnnnnnnnnnnnnnnnnnn\n\
        module, name of 64 bytes: nnnnnnnnnnnnnnnnnnnnnnnnnnnnnnnnnnnnnnnnnnnnnnnnnnnnnnnnnnnnnnnn\n\
        module, name with a zero inside: ini\0rd\n\
        module, name with byte 127: initrd\x7f\n\
        module, name with byte 128: initrd\x80\n",
        |row| named(rt, row),
    )
}

// Two rules are broken; the lower number is given.
fn two_rules(rt: &impl Print) -> io::Result<()> {
    table::try_rows(
        b"\
        module of type 0, bad name: 0 16777216 123457 1\n\
        module, bad name, end above 2^64: 1 16777216 18446744073709551615 1\n",
        |row| members(rt, row),
    )
}

pub fn all(rt: &impl Print) -> io::Result<()> {
    places(rt)?;
    names(rt)?;
    two_rules(rt)
}
