// Texts and raw bytes in fields of a byte layout. The layouts themselves are definitions: specs/Fields.antt and specs/Stored.antt.
#![tactic(auto)]

ghost use Rattle.std.specs.Prelude.{◌≡◌, [], ◌+◌, ◌≤◌, length};
ghost use Rattle.words.specs.Words.{replaced};
ghost use Rattle.byte_layout.specs.Fields.{padded};
ghost use Rattle.byte_layout.specs.Stored.{bytes_at, text_at, over};

// How long the text in the `width` bytes from `at` on is: `width` where no zero closes it.
pub fn text_length(bytes: &[u8], at: usize, width: usize) -> usize
    requires { at + width ≤ length bytes.now }
    ensures { (result ≡ length (text_at bytes.now at width)) × (result ≤ width) }
{
    bytes[at..at + width]
        .iter()
        .position(|byte| *byte == 0)
        .unwrap_or(width)
}

// Copies the `n` bytes from `at` on to the front of `out`; what is after them stays.
#[tactic(auto, using(crate::proofs::Copies::copying), unfolding(crate::specs::Stored::bytes_at))]
pub fn copy(bytes: &[u8], at: usize, n: usize, out: &mut [u8])
    requires { (at + n ≤ length bytes.now) × (n ≤ length out.old) }
    ensures { out.new ≡ over (bytes_at bytes.now at n) out.old }
{
    for (i, byte) in out[..n].iter_mut().enumerate() {
        *byte = bytes[at + i];
    }
}

// Copies the text in a field as wide as `out`, from `at` on, to the front of `out`; what is after it stays.
#[tactic(auto, using(crate::proofs::Copies::text_bytes))]
pub fn copy_text(bytes: &[u8], at: usize, out: &mut [u8])
    requires { at + length out.old ≤ length bytes.now }
    ensures { out.new ≡ over (text_at bytes.now at (length out.old)) out.old }
{
    let n = text_length(bytes, at, out.len());
    copy(bytes, at, n, out);
}

// Stores the bytes from `at` on; what is before and after them stays.
#[tactic(auto, using(crate::proofs::Copies::copying), unfolding(crate::specs::Stored::bytes_at))]
pub fn store(bytes: &[u8], out: &mut [u8], at: usize)
    requires { at + length bytes.now ≤ length out.old }
    ensures { out.new ≡ replaced out.old at (length bytes.now) bytes.now }
{
    for (i, byte) in out[at..at + bytes.len()].iter_mut().enumerate() {
        *byte = bytes[i];
    }
}

// Stores `n` zeros from `at` on.
pub fn clear(out: &mut [u8], at: usize, n: usize)
    requires { at + n ≤ length out.old }
    ensures { out.new ≡ replaced out.old at n (padded n []) }
{
    out[at..at + n].fill(0);
}

// Bytes in their field of `width` bytes from `at` on, with zeros after them.
pub fn store_padded(part: &mut [u8], at: usize, width: usize, bytes: &[u8])
    requires { (at + width ≤ length part.old) × (length bytes.now ≤ width) }
    ensures { part.new ≡ replaced part.old at width (padded width bytes.now) }
{
    store(bytes, part, at);
    let n = bytes.len();
    clear(part, at + n, width - n);
}
