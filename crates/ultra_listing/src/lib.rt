// The listing of a lent context, as bytes in lent output: document 01, "The listing".
#![tactic(auto)]

mod attributes;
mod context;

ghost use Rattle.std.specs.Prelude.{◌≡◌, length};
ghost use Rattle.text_output.specs.Output.{puts};
ghost use Rattle.listing_format.specs.Listing.{listing, listed};

use refusals::Refusal;

// Puts the listing from the front of `out` on, as far as it goes, and answers how long it is.
fn write(out: &mut [u8], buf: &[u8]) -> u32
    ensures { (out.new, result) ≡ puts (out.old, 0) (listing buf.now) }
{
    let answer = ultra_reading::used_length(buf, 2);
    match answer {
        Err(refusal) => context::refused(out, refusal),
        Ok(used) => context::accepted(out, buf, used),
    }
}

// How long the listing is.
pub fn listing_length(buf: &[u8]) -> u32
    ensures { result ≡ length (listing buf.now) }
{
    let mut none = [0u8; 0];
    write(&mut none, buf)
}

// The listing, written over the front of `out`; answers its length. 18 where `out` is too short, and nothing is written.
pub fn list(buf: &[u8], out: &mut [u8]) -> Result<u32, Refusal>
    ensures { (result, out.new) ≡ listed buf.now out.old }
{
    if out.len() < listing_length(buf) as usize {
        return Err(Refusal::new(refusals::ROOM, 0));
    }
    Ok(write(out, buf))
}
