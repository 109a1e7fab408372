ghost use Rattle.std.specs.Prelude.{◌≡◌, true};
ghost use Rattle.refusals.specs.Answers.{checked};
ghost use Rattle.address_ranges.specs.Ranges.{range_fits};
ghost use Rattle.ultra_format.specs.Members.{module_values, ascii_text, member_check};

// The first of 12 to 16 that the module given breaks.
pub fn check(kind: u32, name: &[u8], address: u64, size: u64) -> Result<(), u16>
    ensures { result ≡ checked (member_check true (module_values kind address) (ascii_text 64 name.now) (range_fits address size) true) }
{
    let text = crate::texts::ascii(name, ultra_layout::module::NAME_WIDTH);
    ultra_rules::module::check(kind, address, size, text)
}
