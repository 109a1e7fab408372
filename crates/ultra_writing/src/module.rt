// A module: type 4.
ghost use Rattle.std.specs.Prelude.{◌≡◌, ◌≤◌, length};
ghost use Rattle.byte_layout.specs.Stored.{over};
ghost use Rattle.ultra_format.specs.Additions.{module_of, new_bytes};
ghost use Rattle.ultra_layout.specs.Sizes.{module_size};

use ultra_layout::{module, types};

pub fn write(part: &mut [u8], kind: u32, name: &[u8], address: u64, size: u64)
    requires { (module_size ≤ length part.old) × (length name.now ≤ 64) }
    ensures { part.new ≡ over (new_bytes (module_of kind name.now address size)) part.old }
{
    crate::header(part, types::MODULE, module::LEAST_SIZE);
    byte_layout::clear(part, module::RESERVED, module::RESERVED_WIDTH);
    words::store_u32(part, module::KIND, kind);
    byte_layout::store_padded(part, module::NAME, module::NAME_WIDTH, name);
    words::store_u64(part, module::ADDRESS, address);
    words::store_u64(part, module::SIZE, size);
}
