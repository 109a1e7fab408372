// Beginning, and the six adds: "records given cross as numbers and byte slices".
ghost use Rattle.std.specs.Prelude.{◌≡◌, true};
ghost use Rattle.ultra_format.specs.Contexts.{Body};
ghost use Rattle.ultra_format.specs.Additions.{platform_of, kernel_of, map_of, module_of, framebuffer_of, map_formed, guids_formed};
ghost use Rattle.ultra_adding.specs.Adding.{added_members};
ghost use Rattle.ultra_building.specs.Building.{begun};
ghost use Rattle.ultra_crossing.specs.Crossing.{crossed};

use ultra_building::members;
use ultra_crossing::of_answer;
use ultra_format::FramebufferRecord;

#[unsafe(no_mangle)]
pub extern "C" fn ultra_begin(buf: &mut [u8]) -> u64
    ensures { (result, buf.new) ≡ crossed (begun buf.old) }
{
    of_answer(ultra_building::begin(buf))
}

// Every member is given, so that none is absent.
#[unsafe(no_mangle)]
pub extern "C" fn ultra_add_platform(
    buf: &mut [u8],
    kind: u32,
    major: u16,
    minor: u16,
    name: &[u8],
    rsdp: u64,
    base: u64,
    depth: u8,
    dtb: u64,
    smbios: u64,
) -> u64
    ensures { (result, buf.new) ≡ crossed (added_members buf.old true (platform_of kind major minor name.now rsdp base depth dtb smbios)) }
{
    of_answer(members::add_platform(
        buf, true, kind, major, minor, name, rsdp, base, depth, dtb, smbios,
    ))
}

// "12 for .. a GUID not of 16"
#[unsafe(no_mangle)]
pub extern "C" fn ultra_add_kernel(
    buf: &mut [u8],
    phys: u64,
    virt: u64,
    size: u64,
    partition_type: u64,
    disk: &[u8],
    partition: &[u8],
    disk_index: u32,
    partition_index: u32,
    path: &[u8],
) -> u64
    ensures { (result, buf.new) ≡ crossed (added_members buf.old (guids_formed disk.now partition.now) (kernel_of phys virt size partition_type disk.now partition.now disk_index partition_index path.now)) }
{
    of_answer(members::add_kernel(
        buf,
        phys,
        virt,
        size,
        partition_type,
        disk,
        partition,
        disk_index,
        partition_index,
        path,
    ))
}

// "12 for a map not of 24n bytes"
#[unsafe(no_mangle)]
pub extern "C" fn ultra_add_map(buf: &mut [u8], entries: &[u8]) -> u64
    ensures { (result, buf.new) ≡ crossed (added_members buf.old (map_formed entries.now) (map_of entries.now)) }
{
    of_answer(members::add_map(buf, entries))
}

#[unsafe(no_mangle)]
pub extern "C" fn ultra_add_module(
    buf: &mut [u8],
    kind: u32,
    name: &[u8],
    address: u64,
    size: u64,
) -> u64
    ensures { (result, buf.new) ≡ crossed (added_members buf.old true (module_of kind name.now address size)) }
{
    of_answer(members::add_module(buf, kind, name, address, size))
}

#[unsafe(no_mangle)]
pub extern "C" fn ultra_add_command_line(buf: &mut [u8], text: &[u8]) -> u64
    ensures { (result, buf.new) ≡ crossed (added_members buf.old true (Body.command_line text.now)) }
{
    of_answer(ultra_building::add_command_line(buf, text))
}

#[unsafe(no_mangle)]
pub extern "C" fn ultra_add_framebuffer(
    buf: &mut [u8],
    width: u32,
    height: u32,
    pitch: u32,
    bpp: u16,
    format: u16,
    address: u64,
) -> u64
    ensures { (result, buf.new) ≡ crossed (added_members buf.old true (framebuffer_of width height pitch bpp format address)) }
{
    let given = FramebufferRecord {
        width,
        height,
        pitch,
        bpp,
        format,
        address,
    };
    of_answer(ultra_building::add_framebuffer(buf, given))
}
