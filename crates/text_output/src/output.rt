// Bytes into a lent output.
ghost use Rattle.std.specs.Prelude.{◌≡◌};
ghost use Rattle.text_output.specs.Output.{next, put, puts};

// The place after one: it stays at the last.
fn next(at: u32) -> u32
    ensures { result ≡ next at }
{
    if at < 4294967295 { at + 1 } else { at }
}

// One byte; past the end it is only counted, so that an empty output measures.
pub fn put(out: &mut [u8], to: u32, byte: u8) -> u32
    ensures { (out.new, result) ≡ put (out.old, to) byte }
{
    let at = to as usize;
    if out.len() <= at {
        return next(to);
    }
    out[at] = byte;
    next(to)
}

// The bytes as they are.
#[tactic(auto, using(crate::proofs::Puts::put_more, crate::proofs::Puts::puts_none))]
pub fn put_all(out: &mut [u8], to: u32, bytes: &[u8]) -> u32
    ensures { (out.new, result) ≡ puts (out.old, to) bytes.now }
{
    let mut at = to;
    for byte in bytes {
        at = put(out, at, *byte);
    }
    at
}
