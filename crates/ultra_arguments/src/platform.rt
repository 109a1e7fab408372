ghost use Rattle.std.specs.Prelude.{◌≡◌, true};
ghost use Rattle.refusals.specs.Answers.{checked};
ghost use Rattle.ultra_format.specs.Members.{nonzero, ascii_text, member_check};

// `complete` says that no member is absent; only these members have rules.
pub fn check(complete: bool, kind: u32, name: &[u8]) -> Result<(), u16>
    ensures { result ≡ checked (member_check complete (nonzero kind) (ascii_text 32 name.now) true true) }
{
    let text = crate::texts::ascii(name, ultra_layout::platform::NAME_WIDTH);
    ultra_rules::first_broken(complete, kind != 0, text, true, true)
}
