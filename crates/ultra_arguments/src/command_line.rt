ghost use Rattle.std.specs.Prelude.{◌≡◌};
ghost use Rattle.refusals.specs.Answers.{checked};
ghost use Rattle.ultra_format.specs.Additions.{Addition, addition_check};

// The size that it is written with has space for its closing zero, so only its bytes are judged.
pub fn check(text: &[u8]) -> Result<(), u16>
    ensures { result ≡ checked (addition_check (Addition.add_command_line text.now)) }
{
    let ascii = crate::texts::all_ascii(text);
    ultra_rules::first_broken(true, true, ascii, true, true)
}
