// What a frame gives, in the widths and arrays that the calls take.
ghost use Rattle.std.specs.Prelude.{◌≤◌, length};

use call_frames::frame;

// One function for the three widths would need a trait of its own.
pub fn u32_at(frame: &[u8], index: u32) -> u32 {
    (frame::number(frame, index) % 4294967296) as u32
}

pub fn u16_at(frame: &[u8], index: u32) -> u16 {
    (frame::number(frame, index) % 65536) as u16
}

pub fn u8_at(frame: &[u8], index: u32) -> u8 {
    (frame::number(frame, index) % 256) as u8
}

// Puts as many of the bytes to the front of `out` as it holds, and answers how many.
pub fn fill(out: &mut [u8], bytes: &[u8]) -> usize
    ensures { result ≤ length out.new }
{
    let n = out.len().min(bytes.len());
    byte_layout::copy(bytes, 0, n, out);
    n
}

// The string at `index` in an array, with zeros after it; what is more is left out.
pub fn array<const N: usize>(frame: &[u8], index: u32) -> [u8; N] {
    let mut array = [0; N];
    fill(&mut array, frame::string(frame, index));
    array
}
