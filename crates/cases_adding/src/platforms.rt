// The platform, added to a context that was just begun.
use cases_adds::context;
use cases_shared::given;
use cases_text::table;
use std::io;
use ultra_format::PlatformRecord;

fn platform(rt: &impl Print, label: &[u8], record: PlatformRecord) -> io::Result<()> {
    cases_adds::add(rt, label, context::begun(), |buf| {
        ultra_building::add_platform(buf, record)
    })
}

// Its type; and 1 for a name of bytes 128.
fn typed(rt: &impl Print, row: &[u8]) -> io::Result<()> {
    let [kind, badly_named] = table::numbers::<2>(row);
    let mut record = given::platform();
    record.kind = (kind % 4294967296) as u32;
    if badly_named == 1 {
        record.name = [128u8; 32];
    }
    platform(rt, table::label(row), record)
}

fn types(rt: &impl Print) -> io::Result<()> {
    table::try_rows(
        b"\
        platform: 3\n\
        platform of type 0: 0\n\
        platform of type 4294967295: 4294967295\n",
        |row| typed(rt, row),
    )
}

fn optional(present: u64) -> Option<u64> {
    if present == 1 {
        return Some(0);
    }
    None
}

fn optional_byte(present: u64) -> Option<u8> {
    if present == 1 {
        return Some(4);
    }
    None
}

// Its type; 1 if it has a higher half base, a depth, a dtb, an smbios; and 1 for a name that begins with byte 128.
fn members(rt: &impl Print, row: &[u8]) -> io::Result<()> {
    let [kind, higher_half_base, depth, dtb, smbios, badly_named] = table::numbers::<6>(row);
    let mut name = given::field(b"frost");
    if badly_named == 1 {
        name[0] = 128;
    }
    let record = PlatformRecord {
        kind: (kind % 4294967296) as u32,
        loader_major: 1,
        loader_minor: 4,
        name,
        rsdp: 917504,
        higher_half_base: optional(higher_half_base),
        depth: optional_byte(depth),
        dtb: optional(dtb),
        smbios: optional(smbios),
    };
    platform(rt, table::label(row), record)
}

// In the last two, two or three rules are broken; the lowest number is given.
fn absent(rt: &impl Print) -> io::Result<()> {
    table::try_rows(
        b"\
        platform without higher half base: 2 0 1 1 1\n\
        platform without depth: 2 1 0 1 1\n\
        platform without dtb: 2 1 1 0 1\n\
        platform without smbios: 2 1 1 1 0\n\
        platform without depth, type 0, bad name: 0 1 0 1 1 1\n",
        |row| members(rt, row),
    )?;
    table::try_rows(b"platform of type 0, bad name: 0 1\n", |row| typed(rt, row))
}

fn named(rt: &impl Print, row: &[u8]) -> io::Result<()> {
    let mut record = given::platform();
    record.name = given::field(table::given(row));
    platform(rt, table::label(row), record)
}

fn names(rt: &impl Print) -> io::Result<()> {
    table::try_rows(
        b"\
        platform, name of 0 bytes: \n\
        platform, name of 31 bytes: nnnnnnnnnnnnnnnnnnnnnnnnnnnnnnn\n\
        platform, name of 32 bytes: nnnnnnnnnnnnnnnnnnnnnnnnnnnnnnnn\n\
        platform, name with a zero inside: fr\0st\n\
        platform, name after a zero: \0frost\n\
        platform, name with byte 127: f\x7frost\n\
        platform, name with byte 128: f\x80rost\n",
        |row| named(rt, row),
    )
}

pub fn all(rt: &impl Print) -> io::Result<()> {
    types(rt)?;
    absent(rt)?;
    names(rt)
}
