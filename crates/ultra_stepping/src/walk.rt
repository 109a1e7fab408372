// The walk over attributes that are known to break none of 5 to 8.
ghost use Rattle.std.specs.Prelude.{◌≡◌};
ghost use Rattle.ultra_format.specs.Decoding.{start};
ghost use Rattle.ultra_stepping.specs.Walking.{InBounds, first_of_type};

use ultra_layout::attribute;

// Where the attribute at `index` starts.
#[tactic(auto, using(crate::proofs::WalkLaws::walk))]
pub fn start_of(buf: &[u8], index: u32) -> usize
    requires { InBounds buf.now index }
    ensures { result ≡ start buf.now index }
{
    let mut at = ultra_layout::head::WIDTH;
    for _ in 0..index {
        at += words::load_u32(buf, at + attribute::SIZE) as usize;
    }
    at
}

// Where the first of type `kind` starts, of the first `count` attributes, or 0, as the definition has it where there is none. They are gone over
// again, so that no list of types is kept.
#[tactic(auto, using(crate::proofs::WalkLaws::walk))]
pub fn first_of_type(buf: &[u8], kind: u32, count: u32) -> usize
    requires { InBounds buf.now count }
    ensures { result ≡ first_of_type buf.now kind 0 count }
{
    let mut at = ultra_layout::head::WIDTH;
    for _ in 0..count {
        if words::load_u32(buf, at) == kind {
            return at;
        }
        at += words::load_u32(buf, at + attribute::SIZE) as usize;
    }
    0
}
