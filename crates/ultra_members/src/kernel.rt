ghost use Rattle.std.specs.Prelude.{◌≡◌, ◌+◌, ◌≤◌, length};
ghost use Rattle.refusals.specs.Answers.{checked};
ghost use Rattle.ultra_format.specs.Contexts.{Body};
ghost use Rattle.ultra_format.specs.Members.{body_check};
ghost use Rattle.ultra_format.specs.Decoding.{kernel_at};

use ultra_layout::kernel;

// The first of 12 to 16 that the kernel in the `size` bytes from `at` on breaks.
pub fn check(bytes: &[u8], at: usize, size: u32) -> Result<(), u16>
    requires { at + size ≤ length bytes.now }
    ensures { result ≡ checked (body_check size (Body.kernel (kernel_at bytes.now at))) }
{
    if size < kernel::LEAST_SIZE {
        return Err(refusals::FORM);
    }
    let phys = kernel::physical_base(bytes, at);
    let virt = kernel::virtual_base(bytes, at);
    let length = kernel::size(bytes, at);
    let partition = kernel::partition_type(bytes, at);
    let text = ultra_rules::texts::path(bytes, at + kernel::PATH, kernel::PATH_WIDTH);
    ultra_rules::kernel::check(true, phys, virt, length, partition, text)
}
