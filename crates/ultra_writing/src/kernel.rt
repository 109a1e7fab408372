// The kernel: type 2.
ghost use Rattle.std.specs.Prelude.{◌≡◌, ◌≤◌, length};
ghost use Rattle.byte_layout.specs.Fields.{cells, filled};
ghost use Rattle.byte_layout.specs.Stored.{over};
ghost use Rattle.ultra_format.specs.Additions.{kernel_of, new_bytes};
ghost use Rattle.ultra_layout.specs.Sizes.{kernel_size};
ghost use Rattle.ultra_writing.specs.Leading.{kernel_leading};

use ultra_layout::{kernel, types};

// The header and the 64-bit members.
fn leading(part: &mut [u8], physical_base: u64, virtual_base: u64, size: u64, partition_type: u64)
    requires { 40 ≤ length part.old }
    ensures { part.new ≡ over (filled (cells (kernel_leading physical_base virtual_base size partition_type))) part.old }
{
    crate::header(part, types::KERNEL, kernel::LEAST_SIZE);
    words::store_u64(part, kernel::PHYSICAL_BASE, physical_base);
    words::store_u64(part, kernel::VIRTUAL_BASE, virtual_base);
    words::store_u64(part, kernel::SIZE, size);
    words::store_u64(part, kernel::PARTITION_TYPE, partition_type);
}

pub fn write(
    part: &mut [u8],
    physical_base: u64,
    virtual_base: u64,
    size: u64,
    partition_type: u64,
    disk_guid: &[u8],
    partition_guid: &[u8],
    disk_index: u32,
    partition_index: u32,
    path: &[u8],
)
    requires { (kernel_size ≤ length part.old) × (length disk_guid.now ≡ 16) × (length partition_guid.now ≡ 16) × (length path.now ≤ 256) }
    ensures { part.new ≡ over (new_bytes (kernel_of physical_base virtual_base size partition_type disk_guid.now partition_guid.now disk_index partition_index path.now)) part.old }
{
    leading(part, physical_base, virtual_base, size, partition_type);
    byte_layout::store_padded(part, kernel::DISK_GUID, kernel::GUID_WIDTH, disk_guid);
    byte_layout::store_padded(
        part,
        kernel::PARTITION_GUID,
        kernel::GUID_WIDTH,
        partition_guid,
    );
    words::store_u32(part, kernel::DISK_INDEX, disk_index);
    words::store_u32(part, kernel::PARTITION_INDEX, partition_index);
    byte_layout::store_padded(part, kernel::PATH, kernel::PATH_WIDTH, path);
}
