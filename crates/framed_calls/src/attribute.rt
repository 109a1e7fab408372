// The answer of `attribute`: its numbers, then the buffer and the texts and GUIDs of a record of each type.
ghost use Rattle.std.specs.Prelude.{◌≤◌};

use call_frames::{answers, reply};
use ultra_format::{FramebufferRecord, KernelRecord, ModuleRecord, PlatformRecord};
use ultra_questions::AttributeAnswer;

const NUMBERS: u32 = 31;

const STRINGS: u32 = 6;

// `worth` where the member is present, or 0.
fn bit<T: Copy>(member: Option<T>, worth: u64) -> u64
    ensures { result ≤ worth }
{
    if member.is_some() { worth } else { 0 }
}

fn platform(out: &mut [u8], to: u32, record: PlatformRecord) -> u32 {
    let base = record.higher_half_base;
    let depth = record.depth;
    let dtb = record.dtb;
    let smbios = record.smbios;
    let present = bit(base, 1) + bit(depth, 2) + bit(dtb, 4) + bit(smbios, 8);
    reply::numbers(
        out,
        to,
        &[
            record.kind as u64,
            record.loader_major as u64,
            record.loader_minor as u64,
            record.rsdp,
            present,
            base.unwrap_or(0),
            depth.unwrap_or(0) as u64,
            dtb.unwrap_or(0),
            smbios.unwrap_or(0),
        ],
    )
}

fn kernel(out: &mut [u8], to: u32, record: KernelRecord) -> u32 {
    reply::numbers(
        out,
        to,
        &[
            record.physical_base,
            record.virtual_base,
            record.size,
            record.partition_type,
            record.disk_index as u64,
            record.partition_index as u64,
        ],
    )
}

fn module(out: &mut [u8], to: u32, record: ModuleRecord) -> u32 {
    reply::numbers(out, to, &[record.kind as u64, record.address, record.size])
}

fn framebuffer(out: &mut [u8], to: u32, record: FramebufferRecord) -> u32 {
    reply::numbers(
        out,
        to,
        &[
            record.width as u64,
            record.height as u64,
            record.pitch as u64,
            record.bpp as u64,
            record.format as u64,
            record.address,
        ],
    )
}

fn platform_strings(out: &mut [u8], to: u32, record: PlatformRecord) -> u32 {
    let name = record.name;
    reply::string(out, to, &name)
}

fn kernel_strings(out: &mut [u8], to: u32, record: KernelRecord) -> u32 {
    let disk_guid = record.disk_guid;
    let partition_guid = record.partition_guid;
    let path = record.path;
    let mut at = reply::string(out, to, &disk_guid);
    at = reply::string(out, at, &partition_guid);
    reply::string(out, at, &path)
}

fn module_strings(out: &mut [u8], to: u32, record: ModuleRecord) -> u32 {
    let name = record.name;
    reply::string(out, to, &name)
}

// The numbers: where the attribute and its part are, and the members of each record.
fn numbers(out: &mut [u8], attribute: AttributeAnswer) -> u32 {
    let answer = attribute.answer;
    let header = attribute.header;
    let part = attribute.part;
    let records = attribute.records;
    let mut at = reply::head(out, 4, NUMBERS, STRINGS);
    at = reply::numbers(
        out,
        at,
        &[
            answers::number(answer),
            answers::value(answer),
            header.kind as u64,
            header.start as u64,
            header.size as u64,
            part.start as u64,
            part.length as u64,
        ],
    );
    at = platform(out, at, records.platform);
    at = kernel(out, at, records.kernel);
    at = module(out, at, records.module);
    framebuffer(out, at, records.framebuffer)
}

// Asks for the attribute at `index`.
pub fn make(index: u64, buf: &[u8], out: &mut [u8]) -> u32 {
    let attribute = ultra_questions::attribute(buf, index);
    let records = attribute.records;
    let mut at = numbers(out, attribute);
    at = reply::string(out, at, buf);
    at = platform_strings(out, at, records.platform);
    at = kernel_strings(out, at, records.kernel);
    module_strings(out, at, records.module)
}
