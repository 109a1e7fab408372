// Where attributes of an accepted context are.
#![tactic(auto)]

ghost use Rattle.std.specs.Prelude.{◌≡◌};
ghost use Rattle.ultra_format.specs.Decoding.{context_of};
ghost use Rattle.ultra_locating.specs.Passing.{Accepts};
ghost use Rattle.ultra_locating.specs.Searching.{of_type, first_in, found_start};

// Where the first attribute of type `kind` starts, or 0, as `found_start` has it where there is none.
pub fn first_of_type(buf: &[u8], kind: u32) -> u32
    requires { Accepts buf.now }
    ensures { result ≡ found_start (first_in (of_type kind) (context_of buf.now)) }
{
    ultra_stepping::first_of_type(buf, kind, words::load_u32(buf, ultra_layout::head::COUNT)) as u32
}
