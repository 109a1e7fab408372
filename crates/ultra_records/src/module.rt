// A module: type 4.
ghost use Rattle.std.specs.Prelude.{◌≡◌, ◌+◌, ◌≤◌, length};
ghost use Rattle.ultra_format.specs.Decoding.{module_at};
ghost use Rattle.ultra_format.specs.Records.{module_record, blank_module};
ghost use Rattle.ultra_layout.specs.Sizes.{module_size};

use ultra_format::ModuleRecord;
use ultra_layout::module;

pub fn blank() -> ModuleRecord
    ensures { result ≡ module_record blank_module }
{
    ModuleRecord {
        kind: 0,
        name: [0u8; 64],
        address: 0,
        size: 0,
    }
}

// The members of the module that starts at `at`.
pub fn read(bytes: &[u8], at: usize) -> ModuleRecord
    requires { at + module_size ≤ length bytes.now }
    ensures { result ≡ module_record (module_at bytes.now at) }
{
    let mut name = [0u8; 64];
    byte_layout::copy_text(bytes, at + module::NAME, &mut name);
    let kind = module::kind(bytes, at);
    let address = module::address(bytes, at);
    let size = module::size(bytes, at);
    ModuleRecord {
        kind,
        name,
        address,
        size,
    }
}
