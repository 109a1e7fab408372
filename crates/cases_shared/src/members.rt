// The members of a record, line by line.
ghost use Rattle.std.specs.Prelude.{◌≤◌};

use cases_text::print;
use std::io;
use ultra_format::{FramebufferRecord, KernelRecord, ModuleRecord, PlatformRecord, Records};

fn optional(rt: &impl Print, before: &[u8], member: Option<u64>) -> io::Result<()> {
    print::words(rt, before)?;
    match member {
        Some(value) => print!(rt; " {value}"),
        None => print::words(rt, b" -"),
    }
}

// A callee that names the array's length owes no proof of it.
fn text<const N: usize>(rt: &impl Print, before: &[u8], field: &[u8; N]) -> io::Result<()>
    requires { N ≤ 256 }
{
    print::words(rt, before)?;
    print::field(rt, field)
}

fn guid(rt: &impl Print, before: &[u8], guid: &[u8; 16]) -> io::Result<()> {
    print::words(rt, before)?;
    print::numbers(rt, guid)
}

// The members that a platform may lack.
fn late_members(rt: &impl Print, record: PlatformRecord) -> io::Result<()> {
    optional(rt, b"\n  higher half base", record.higher_half_base)?;
    optional(rt, b", depth", record.depth.map(|depth| depth as u64))?;
    optional(rt, b", dtb", record.dtb)?;
    optional(rt, b", smbios", record.smbios)?;
    print::words(rt, b"\n")
}

pub fn platform(rt: &impl Print, record: PlatformRecord) -> io::Result<()> {
    print!(rt;
        "  platform type {}, loader {}.{}",
        record.kind, record.loader_major, record.loader_minor
    )?;
    text(rt, b", name ", &record.name)?;
    print!(rt; ", rsdp {}", record.rsdp)?;
    late_members(rt, record)
}

fn disk(rt: &impl Print, record: KernelRecord) -> io::Result<()> {
    print!(rt;
        "\n  partition type {}, disk {}, partition {}",
        record.partition_type, record.disk_index, record.partition_index
    )?;
    guid(rt, b"\n  disk guid", &record.disk_guid)?;
    guid(rt, b"\n  partition guid", &record.partition_guid)
}

pub fn kernel(rt: &impl Print, record: KernelRecord) -> io::Result<()> {
    print!(rt;
        "  kernel physical base {}, virtual base {}, size {}",
        record.physical_base, record.virtual_base, record.size
    )?;
    disk(rt, record)?;
    text(rt, b"\n  path ", &record.path)?;
    print::words(rt, b"\n")
}

pub fn module(rt: &impl Print, record: ModuleRecord) -> io::Result<()> {
    print!(rt; "  module type {}", record.kind)?;
    text(rt, b", name ", &record.name)?;
    println!(rt; ", address {}, size {}", record.address, record.size)
}

pub fn framebuffer(rt: &impl Print, record: FramebufferRecord) -> io::Result<()> {
    print!(rt;
        "  framebuffer width {}, height {}, pitch {}",
        record.width, record.height, record.pitch
    )?;
    println!(rt;
        ", bpp {}, format {}, address {}",
        record.bpp, record.format, record.address
    )
}

// The members of the attribute's own record; of types 3, 5 and 7 there is none.
pub fn own(rt: &impl Print, kind: u32, records: Records) -> io::Result<()> {
    match kind {
        1 => platform(rt, records.platform),
        2 => kernel(rt, records.kernel),
        4 => module(rt, records.module),
        6 => framebuffer(rt, records.framebuffer),
        _ => Ok(()),
    }
}
