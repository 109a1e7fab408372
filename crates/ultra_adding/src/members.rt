// Adds of members given one by one, as numbers and byte slices: a text is its bytes as they are. The calls toward C and the adds of
// records that have arrays are made of these.
ghost use Rattle.std.specs.Prelude.{◌≡◌, true};
ghost use Rattle.ultra_format.specs.Additions.{platform_of, kernel_of, map_of, module_of, map_formed, guids_formed};
ghost use Rattle.ultra_adding.specs.Adding.{added_members};

use refusals::Refusal;
use ultra_appending::raise_count;
use ultra_layout::{entry, kernel, map, module, platform, types};

// Adds a platform; `complete` says that no member is absent.
pub fn add_platform(
    buf: &mut [u8],
    complete: bool,
    kind: u32,
    major: u16,
    minor: u16,
    name: &[u8],
    rsdp: u64,
    base: u64,
    depth: u8,
    dtb: u64,
    smbios: u64,
) -> Result<u32, Refusal>
    ensures { (result, buf.new) ≡ added_members buf.old complete (platform_of kind major minor name.now rsdp base depth dtb smbios) }
{
    let judged = ultra_arguments::platform::check(complete, kind, name);
    let answer = raise_count(buf, types::PLATFORM, judged, platform::FULL_SIZE as usize);
    let Ok(used) = answer else {
        return answer;
    };
    ultra_writing::platform::write(
        &mut buf[used as usize..],
        kind,
        major,
        minor,
        name,
        rsdp,
        base,
        depth,
        dtb,
        smbios,
    );
    Ok(used + platform::FULL_SIZE)
}

// Adds a kernel.
pub fn add_kernel(
    buf: &mut [u8],
    phys: u64,
    virt: u64,
    size: u64,
    partition_type: u64,
    disk: &[u8],
    partition: &[u8],
    disk_index: u32,
    partition_index: u32,
    path: &[u8],
) -> Result<u32, Refusal>
    ensures { (result, buf.new) ≡ added_members buf.old (guids_formed disk.now partition.now) (kernel_of phys virt size partition_type disk.now partition.now disk_index partition_index path.now) }
{
    let judged = ultra_arguments::kernel::check(
        phys,
        virt,
        size,
        partition_type,
        disk,
        partition,
        path,
    );
    let answer = raise_count(buf, types::KERNEL, judged, kernel::LEAST_SIZE as usize);
    let Ok(used) = answer else {
        return answer;
    };
    ultra_writing::kernel::write(
        &mut buf[used as usize..],
        phys,
        virt,
        size,
        partition_type,
        disk,
        partition,
        disk_index,
        partition_index,
        path,
    );
    Ok(used + kernel::LEAST_SIZE)
}

// Adds a memory map from bytes, "eight to a number": they are read where they lie.
pub fn add_map(buf: &mut [u8], entries: &[u8]) -> Result<u32, Refusal>
    ensures { (result, buf.new) ≡ added_members buf.old (map_formed entries.now) (map_of entries.now) }
{
    let judged = ultra_arguments::map::bytes_check(entries);
    let size = map::ENTRIES + entries.len() / entry::WIDTH * entry::WIDTH;
    let answer = raise_count(buf, types::MEMORY_MAP, judged, size);
    let Ok(used) = answer else {
        return answer;
    };
    ultra_writing::map::write_bytes(&mut buf[used as usize..], entries);
    Ok(used + size as u32)
}

// Adds a module.
pub fn add_module(
    buf: &mut [u8],
    kind: u32,
    name: &[u8],
    address: u64,
    size: u64,
) -> Result<u32, Refusal>
    ensures { (result, buf.new) ≡ added_members buf.old true (module_of kind name.now address size) }
{
    let judged = ultra_arguments::module::check(kind, name, address, size);
    let answer = raise_count(buf, types::MODULE, judged, module::LEAST_SIZE as usize);
    let Ok(used) = answer else {
        return answer;
    };
    ultra_writing::module::write(&mut buf[used as usize..], kind, name, address, size);
    Ok(used + module::LEAST_SIZE)
}
