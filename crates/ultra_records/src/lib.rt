// The records of an attribute's members, out of a buffer: one module for each type that has one.
#![tactic(auto)]

mod framebuffer;
mod kernel;
mod module;
mod platform;

ghost use Rattle.std.specs.Prelude.{◌≡◌, true, ◌+◌, ◌≤◌, length};
ghost use Rattle.ultra_format.specs.Members.{size_suits};
ghost use Rattle.ultra_format.specs.Decoding.{decoded};
ghost use Rattle.ultra_format.specs.Records.{blank_records, records_of};

use ultra_format::Records;
use ultra_layout::types;

pub fn blank() -> Records
    ensures { result ≡ blank_records }
{
    let platform = platform::blank();
    let kernel = kernel::blank();
    let module = module::blank();
    let framebuffer = framebuffer::blank();
    Records {
        platform,
        kernel,
        module,
        framebuffer,
    }
}

// The records of the attribute of type `kind` in the `size` bytes from `at` on.
pub fn records(bytes: &[u8], at: usize, size: u32, kind: u32) -> Records
    requires size_in_bounds { at + size ≤ length bytes.now }
    requires kind_value { size_suits size (decoded bytes.now at size kind) ≡ true }
    ensures { result ≡ records_of (decoded bytes.now at size kind) }
{
    let mut records = blank();
    if kind == types::PLATFORM {
        records.platform = platform::read(bytes, at, size);
        return records;
    }
    if kind == types::KERNEL {
        records.kernel = kernel::read(bytes, at);
        return records;
    }
    if kind == types::MODULE {
        records.module = module::read(bytes, at);
        return records;
    }
    if kind == types::FRAMEBUFFER {
        records.framebuffer = framebuffer::read(bytes, at);
    }
    records
}
