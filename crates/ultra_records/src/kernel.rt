// The kernel: type 2. "GUIDs are carried as 16 raw bytes, an array in the kernel record, in every partition type."
ghost use Rattle.std.specs.Prelude.{◌≡◌, ◌+◌, ◌≤◌, length};
ghost use Rattle.ultra_format.specs.Decoding.{kernel_at};
ghost use Rattle.ultra_format.specs.Records.{kernel_record, blank_kernel};
ghost use Rattle.ultra_layout.specs.Sizes.{kernel_size};

use ultra_format::KernelRecord;
use ultra_layout::kernel;

pub fn blank() -> KernelRecord
    ensures { result ≡ kernel_record blank_kernel }
{
    KernelRecord {
        physical_base: 0,
        virtual_base: 0,
        size: 0,
        partition_type: 0,
        disk_guid: [0u8; 16],
        partition_guid: [0u8; 16],
        disk_index: 0,
        partition_index: 0,
        path: [0u8; 256],
    }
}

// The members of the kernel that starts at `at`.
pub fn read(bytes: &[u8], at: usize) -> KernelRecord
    requires { at + kernel_size ≤ length bytes.now }
    ensures { result ≡ kernel_record (kernel_at bytes.now at) }
{
    let mut path = [0u8; 256];
    byte_layout::copy_text(bytes, at + kernel::PATH, &mut path);
    let physical_base = kernel::physical_base(bytes, at);
    let virtual_base = kernel::virtual_base(bytes, at);
    let size = kernel::size(bytes, at);
    let partition_type = kernel::partition_type(bytes, at);
    let disk_guid = kernel::disk_guid(bytes, at);
    let partition_guid = kernel::partition_guid(bytes, at);
    let disk_index = kernel::disk_index(bytes, at);
    let partition_index = kernel::partition_index(bytes, at);
    KernelRecord {
        physical_base,
        virtual_base,
        size,
        partition_type,
        disk_guid,
        partition_guid,
        disk_index,
        partition_index,
        path,
    }
}
