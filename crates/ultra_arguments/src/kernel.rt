ghost use Rattle.std.specs.Prelude.{◌≡◌, true, ◌&&◌};
ghost use Rattle.refusals.specs.Answers.{checked};
ghost use Rattle.address_ranges.specs.Ranges.{range_fits};
ghost use Rattle.ultra_format.specs.Members.{kernel_values, path_text, member_check};
ghost use Rattle.ultra_format.specs.Additions.{guids_formed};

use ultra_layout::kernel;

// "12 for .. a GUID not of 16"
fn guids_formed(disk: &[u8], partition: &[u8]) -> bool
    ensures { result ≡ guids_formed disk.now partition.now }
{
    disk.len() == kernel::GUID_WIDTH && partition.len() == kernel::GUID_WIDTH
}

// Only these members have rules.
pub fn check(
    phys: u64,
    virt: u64,
    size: u64,
    partition_type: u64,
    disk: &[u8],
    partition: &[u8],
    path: &[u8],
) -> Result<(), u16>
    ensures { result ≡ checked (member_check (guids_formed disk.now partition.now) (kernel_values phys virt size partition_type) (path_text 256 path.now) (range_fits phys size && range_fits virt size) true) }
{
    let form = guids_formed(disk, partition);
    let text = crate::texts::path(path);
    ultra_rules::kernel::check(form, phys, virt, size, partition_type, text)
}
