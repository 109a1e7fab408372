// Beginning, and the adds of records.
use crate::given;
use call_frames::{answers, frame};
use refusals::Refusal;
use ultra_format::{FramebufferRecord, KernelRecord, ModuleRecord, PlatformRecord};

pub fn begin(buf: &mut [u8], out: &mut [u8]) -> u32 {
    let answer = ultra_building::begin(buf);
    answers::plain(out, 12, answer, buf)
}

fn platform(frame: &[u8]) -> PlatformRecord {
    let present = frame::number(frame, 4);
    let higher_half_base = (present % 2 == 1).then_some(frame::number(frame, 5));
    let depth = (present / 2 % 2 == 1).then_some(given::u8_at(frame, 6));
    let dtb = (present / 4 % 2 == 1).then_some(frame::number(frame, 7));
    let smbios = (present / 8 % 2 == 1).then_some(frame::number(frame, 8));
    PlatformRecord {
        kind: given::u32_at(frame, 0),
        loader_major: given::u16_at(frame, 1),
        loader_minor: given::u16_at(frame, 2),
        name: given::array(frame, 1),
        rsdp: frame::number(frame, 3),
        higher_half_base,
        depth,
        dtb,
        smbios,
    }
}

fn kernel(frame: &[u8]) -> KernelRecord {
    KernelRecord {
        physical_base: frame::number(frame, 0),
        virtual_base: frame::number(frame, 1),
        size: frame::number(frame, 2),
        partition_type: frame::number(frame, 3),
        disk_guid: given::array(frame, 1),
        partition_guid: given::array(frame, 2),
        disk_index: given::u32_at(frame, 4),
        partition_index: given::u32_at(frame, 5),
        path: given::array(frame, 3),
    }
}

fn module(frame: &[u8]) -> ModuleRecord {
    ModuleRecord {
        kind: given::u32_at(frame, 0),
        name: given::array(frame, 1),
        address: frame::number(frame, 1),
        size: frame::number(frame, 2),
    }
}

fn framebuffer(frame: &[u8]) -> FramebufferRecord {
    FramebufferRecord {
        width: given::u32_at(frame, 0),
        height: given::u32_at(frame, 1),
        pitch: given::u32_at(frame, 2),
        bpp: given::u16_at(frame, 3),
        format: given::u16_at(frame, 4),
        address: frame::number(frame, 5),
    }
}

fn add_map(frame: &[u8], buf: &mut [u8], numbers: &mut [u64]) -> Result<u32, Refusal> {
    let n = frame::load_numbers(frame::string(frame, 1), numbers);
    ultra_building::add_map(buf, &numbers[0..n])
}

fn add(call: u32, frame: &[u8], buf: &mut [u8], numbers: &mut [u64]) -> Result<u32, Refusal> {
    match call {
        13 => ultra_building::add_platform(buf, platform(frame)),
        14 => ultra_building::add_kernel(buf, kernel(frame)),
        15 => add_map(frame, buf, numbers),
        16 => ultra_building::add_module(buf, module(frame)),
        17 => ultra_building::add_command_line(buf, frame::string(frame, 1)),
        _ => ultra_building::add_framebuffer(buf, framebuffer(frame)),
    }
}

// Makes one of the calls 13 to 18.
pub fn make(call: u32, frame: &[u8], buf: &mut [u8], numbers: &mut [u64], out: &mut [u8]) -> u32 {
    let answer = add(call, frame, buf, numbers);
    answers::plain(out, call, answer, buf)
}
