// The adds of records that have arrays. Such a record is taken apart, its text without trailing zeros, for the adds of members, which are
// those of the calls toward C too.
ghost use Rattle.std.specs.Prelude.{◌≡◌};
ghost use Rattle.ultra_format.specs.Additions.{Addition};
ghost use Rattle.ultra_adding.specs.Adding.{added};

use crate::late_members;
use refusals::Refusal;
use ultra_adding::members;
use ultra_format::{KernelRecord, ModuleRecord, PlatformRecord};

// Adds a platform; every member has to be present.
pub fn add_platform(buf: &mut [u8], given: PlatformRecord) -> Result<u32, Refusal>
    ensures { (result, buf.new) ≡ added buf.old (Addition.add_platform given) }
{
    let complete = late_members::complete(given);
    let name = given.name;
    let length = ultra_arguments::texts::trimmed_length(&name);
    members::add_platform(
        buf,
        complete,
        given.kind,
        given.loader_major,
        given.loader_minor,
        &name[0..length],
        given.rsdp,
        given.higher_half_base.unwrap_or(0),
        given.depth.unwrap_or(0),
        given.dtb.unwrap_or(0),
        given.smbios.unwrap_or(0),
    )
}

// Adds a kernel.
pub fn add_kernel(buf: &mut [u8], given: KernelRecord) -> Result<u32, Refusal>
    ensures { (result, buf.new) ≡ added buf.old (Addition.add_kernel given) }
{
    let disk = given.disk_guid;
    let partition = given.partition_guid;
    let path = given.path;
    let length = ultra_arguments::texts::trimmed_length(&path);
    members::add_kernel(
        buf,
        given.physical_base,
        given.virtual_base,
        given.size,
        given.partition_type,
        &disk,
        &partition,
        given.disk_index,
        given.partition_index,
        &path[0..length],
    )
}

// Adds a module.
pub fn add_module(buf: &mut [u8], given: ModuleRecord) -> Result<u32, Refusal>
    ensures { (result, buf.new) ≡ added buf.old (Addition.add_module given) }
{
    let name = given.name;
    let length = ultra_arguments::texts::trimmed_length(&name);
    members::add_module(buf, given.kind, &name[0..length], given.address, given.size)
}
