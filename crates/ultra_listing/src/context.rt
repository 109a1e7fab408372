// A whole listing: of an accepted context, and of a refused one.
ghost use Rattle.std.specs.Prelude.{◌≡◌};
ghost use Rattle.key_value_text.specs.LineOutput.{put_lines};
ghost use Rattle.ultra_format.specs.Contexts.{used as used·of};
ghost use Rattle.ultra_format.specs.Decoding.{context_of};
ghost use Rattle.ultra_locating.specs.Passing.{Accepts};
ghost use Rattle.listing_format.specs.Listing.{context_lines, refused_lines};

use listing_lines::numbers::{one, two};
use refusals::Refusal;

pub fn refused(out: &mut [u8], refusal: Refusal) -> u32
    ensures { (out.new, result) ≡ put_lines (out.old, 0) (refused_lines refusal) }
{
    two(
        out,
        0,
        b"refused",
        b',',
        refusal.number as u64,
        refusal.offset as u64,
    )
}

// `used` is the used length.
#[tactic(auto, using(ultra_locating::proofs::Located::head_inside))]
pub fn accepted(out: &mut [u8], buf: &[u8], used: u32) -> u32
    requires accepts { Accepts buf.now }
    requires used_value { used ≡ used·of (context_of buf.now) }
    ensures { (out.new, result) ≡ put_lines (out.old, 0) (context_lines (context_of buf.now)) }
{
    let major = buf[0] as u64;
    let minor = buf[1] as u64;
    let after_version = two(out, 0, b"version", b'.', major, minor);
    let after_count = one(
        out,
        after_version,
        b"attributes",
        ultra_layout::head::count(buf) as u64,
    );
    let after_attributes = crate::attributes::all(out, after_count, buf);
    one(out, after_attributes, b"used", used as u64)
}
