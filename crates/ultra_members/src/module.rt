ghost use Rattle.std.specs.Prelude.{◌≡◌, ◌+◌, ◌≤◌, length};
ghost use Rattle.refusals.specs.Answers.{checked};
ghost use Rattle.ultra_format.specs.Contexts.{Body};
ghost use Rattle.ultra_format.specs.Members.{body_check};
ghost use Rattle.ultra_format.specs.Decoding.{module_at};

use ultra_layout::module;

// The first of 12 to 16 that the module in the `size` bytes from `at` on breaks.
pub fn check(bytes: &[u8], at: usize, size: u32) -> Result<(), u16>
    requires { at + size ≤ length bytes.now }
    ensures { result ≡ checked (body_check size (Body.module_info (module_at bytes.now at))) }
{
    if size < module::LEAST_SIZE {
        return Err(refusals::FORM);
    }
    let kind = module::kind(bytes, at);
    let address = module::address(bytes, at);
    let length = module::size(bytes, at);
    let text = ultra_rules::texts::ascii(bytes, at + module::NAME, module::NAME_WIDTH);
    ultra_rules::module::check(kind, address, length, text)
}
