ghost use Rattle.std.specs.Prelude.{◌≡◌, ◌+◌, ◌≤◌, length};
ghost use Rattle.refusals.specs.Answers.{checked};
ghost use Rattle.ultra_format.specs.Contexts.{Body};
ghost use Rattle.ultra_format.specs.Members.{body_check};
ghost use Rattle.ultra_format.specs.Decoding.{platform_at};

use ultra_layout::platform;

// The first of 12 to 16 that the platform in the `size` bytes from `at` on breaks.
pub fn check(bytes: &[u8], at: usize, size: u32) -> Result<(), u16>
    requires { at + size ≤ length bytes.now }
    ensures { result ≡ checked (body_check size (Body.platform (platform_at bytes.now at size))) }
{
    if size < platform::LEAST_SIZE {
        return Err(refusals::FORM);
    }
    let value = platform::kind(bytes, at) != 0;
    let text = ultra_rules::texts::ascii(bytes, at + platform::NAME, platform::NAME_WIDTH);
    ultra_rules::first_broken(true, value, text, true, true)
}
