// The kernel, added after a platform.
use cases_adds::context;
use cases_shared::given;
use cases_text::table;
use std::io;
use ultra_format::KernelRecord;

fn kernel(rt: &impl Print, label: &[u8], record: KernelRecord) -> io::Result<()> {
    cases_adds::add(rt, label, context::platform(), |buf| {
        ultra_building::add_kernel(buf, record)
    })
}

// Its physical and virtual base, size and partition type; and 1 for a path of 0 bytes.
fn members(rt: &impl Print, row: &[u8]) -> io::Result<()> {
    let [physical_base, virtual_base, size, partition_type, pathless] = table::numbers::<5>(row);
    let mut record = given::kernel();
    record.physical_base = physical_base;
    record.virtual_base = virtual_base;
    record.size = size;
    record.partition_type = partition_type;
    if pathless == 1 {
        record.path = [0u8; 256];
    }
    kernel(rt, table::label(row), record)
}

fn places(rt: &impl Print) -> io::Result<()> {
    table::try_rows(
        b"\
        kernel: 2097152 18446744071564165120 65536 2\n\
        kernel of partition type 0: 2097152 18446744071564165120 65536 0\n\
        kernel of partition type 4294967296: 2097152 18446744071564165120 65536 4294967296\n\
        kernel at physical 4095: 4095 4096 4096 8\n\
        kernel at virtual 4095: 4096 4095 4096 8\n\
        kernel of 4095 bytes: 4096 4096 4095 8\n\
        kernel at physical 2048: 2048 4096 4096 8\n\
        kernel at virtual 2048: 4096 2048 4096 8\n\
        kernel of 2048 bytes: 4096 4096 2048 8\n\
        kernel of 4096 bytes at 4096: 4096 4096 4096 8\n\
        kernel of 0 bytes at 0: 0 0 0 8\n\
        kernel, physical end at 2^64: 18446744073709547520 4096 4096 8\n\
        kernel, physical end a page above 2^64: 18446744073709547520 4096 8192 8\n\
        kernel, virtual end at 2^64: 4096 18446744073709547520 4096 8\n\
        kernel, virtual end a page above 2^64: 4096 18446744073709547520 8192 8\n",
        |row| members(rt, row),
    )
}

fn full_path(rt: &impl Print, label: &[u8], path: [u8; 256]) -> io::Result<()> {
    let mut record = given::kernel();
    record.path = path;
    kernel(rt, label, record)
}

fn with_path(rt: &impl Print, row: &[u8]) -> io::Result<()> {
    full_path(rt, table::label(row), given::field(table::given(row)))
}

fn paths(rt: &impl Print) -> io::Result<()> {
    table::try_rows(b"kernel, path of 1 byte: /\n", |row| with_path(rt, row))?;
    let mut path = [b'/'; 256];
    path[255] = 0;
    full_path(rt, b"kernel, path of 255 bytes", path)?;
    full_path(rt, b"kernel, path of 256 bytes", [b'/'; 256])?;
    table::try_rows(
        b"\
        kernel, path of 0 bytes: \n\
        kernel, path without its slash: boot/k\n\
        kernel, path with a zero inside: /boot\0k\n\
        kernel, path with bytes 128 and 255: /b\x80\xff/k\n",
        |row| with_path(rt, row),
    )
}

// Two rules are broken; the lower number is given.
fn two_rules(rt: &impl Print) -> io::Result<()> {
    table::try_rows(
        b"\
        kernel at physical 4095, path of 0 bytes: 4095 18446744071564165120 65536 8 1\n\
        kernel, path of 0 bytes, end above 2^64: 18446744073709547520 18446744071564165120 65536 8 1\n",
        |row| members(rt, row),
    )
}

pub fn all(rt: &impl Print) -> io::Result<()> {
    places(rt)?;
    paths(rt)?;
    two_rules(rt)
}
