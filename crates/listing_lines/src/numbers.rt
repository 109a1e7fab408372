// Lines of one, two and three numbers.
ghost use Rattle.std.specs.Prelude.{◌≡◌, [], ◌∷◌};
ghost use Rattle.text_output.specs.Output.{puts};
ghost use Rattle.key_value_text.specs.Lines.{Value, line, line_bytes};
ghost use Rattle.listing_format.specs.Listing.{comma};

pub fn one(out: &mut [u8], to: u32, key: &[u8], a: u64) -> u32
    ensures { (out.new, result) ≡ puts (out.old, to) (line_bytes (line key.now (Value.numbers comma (a ∷ [])))) }
{
    let numbers = [a];
    key_value_text::numbers_line(out, to, key, b',', &numbers)
}

pub fn two(out: &mut [u8], to: u32, key: &[u8], separator: u8, a: u64, b: u64) -> u32
    ensures { (out.new, result) ≡ puts (out.old, to) (line_bytes (line key.now (Value.numbers separator (a ∷ b ∷ [])))) }
{
    let numbers = [a, b];
    key_value_text::numbers_line(out, to, key, separator, &numbers)
}

pub fn three(out: &mut [u8], to: u32, key: &[u8], a: u64, b: u64, c: u64) -> u32
    ensures { (out.new, result) ≡ puts (out.old, to) (line_bytes (line key.now (Value.numbers comma (a ∷ b ∷ c ∷ [])))) }
{
    let numbers = [a, b, c];
    key_value_text::numbers_line(out, to, key, b',', &numbers)
}
