// The context of document 01's listing, built in a buffer of 165s.
use cases_shared::{given, show};
use cases_text::print;
use std::io;
use ultra_format::{KernelRecord, PlatformRecord};

fn platform() -> PlatformRecord {
    PlatformRecord {
        kind: 2,
        loader_major: 1,
        loader_minor: 4,
        name: given::field(b"frost\0\0\0"),
        rsdp: 917504,
        higher_half_base: Some(18446603336221196288),
        depth: Some(4),
        dtb: Some(0),
        smbios: Some(0),
    }
}

fn kernel() -> KernelRecord {
    KernelRecord {
        physical_base: 2097152,
        virtual_base: 18446744071564165120,
        size: 65536,
        partition_type: 2,
        disk_guid: [0u8; 16],
        partition_guid: [0u8; 16],
        disk_index: 0,
        partition_index: 1,
        path: given::field(b"/boot/k\0"),
    }
}

fn begin_and_platform(rt: &impl Print, buf: &mut [u8; 512]) -> io::Result<()> {
    show::call(rt, b"listing, begin", ultra_building::begin(buf))?;
    show::call(
        rt,
        b"listing, platform",
        ultra_building::add_platform(buf, platform()),
    )?;
    show::reading(
        rt,
        b"listing, platform alone, read",
        ultra_reading::read(buf),
    )
}

fn kernel_map_and_line(rt: &impl Print, buf: &mut [u8; 512]) -> io::Result<()> {
    show::call(
        rt,
        b"listing, kernel",
        ultra_building::add_kernel(buf, kernel()),
    )?;
    show::call(
        rt,
        b"listing, map",
        ultra_building::add_map(buf, &[1048576, 1048576, 1]),
    )?;
    show::call(
        rt,
        b"listing, command line",
        ultra_building::add_command_line(buf, b"quiet"),
    )
}

fn read(rt: &impl Print, buf: &[u8; 512]) -> io::Result<()> {
    show::reading(rt, b"listing, read", ultra_reading::read(buf))?;
    print::words(rt, b"listing, bytes")?;
    print::rows(rt, buf)?;
    print::words(rt, b"\n")
}

fn differences(rt: &impl Print, left: &[u8; 512], right: &[u8; 512]) -> io::Result<()> {
    let differ = print::differences(left, right);
    println!(rt; ", bytes that differ {differ}")
}

fn head(rt: &impl Print, buf: &[u8; 512]) -> io::Result<()> {
    print::words(rt, b", head")?;
    print::numbers(rt, &buf[..8])
}

// A context is emptied by beginning it again; what was after its head stays.
fn begin_again(rt: &impl Print, built: [u8; 512]) -> io::Result<()> {
    let mut space = built;
    print::words(rt, b"listing, begin again")?;
    show::answer(rt, ultra_building::begin(&mut space))?;
    head(rt, &space)?;
    differences(rt, &built, &space)?;
    show::reading(
        rt,
        b"listing, begin again, read",
        ultra_reading::read(&space),
    )?;
    show::call(
        rt,
        b"listing, begin again, platform",
        ultra_building::add_platform(&mut space, platform()),
    )
}

pub fn all(rt: &impl Print) -> io::Result<()> {
    let mut space = [165u8; 512];
    begin_and_platform(rt, &mut space)?;
    kernel_map_and_line(rt, &mut space)?;
    read(rt, &space)?;
    begin_again(rt, space)
}
