// A lent buffer: how much of it counts, and parts of it that are handed back.
#![tactic(auto)]

ghost use Rattle.std.specs.Prelude.{◌≡◌, ◌+◌, ◌≤◌, length};
ghost use Rattle.lent_buffers.specs.Room.{room_of};
ghost use Rattle.lent_buffers.specs.LentParts.{PartOf, no_part};

// Document 01's room: how many bytes of the buffer count.
pub fn room(buf: &[u8]) -> usize
    ensures { result ≡ room_of buf.now }
{
    buf.len().min(65536)
}

// Where a part of the buffer starts, and how long it is.
#[derive(Clone, Copy)]
pub struct Part {
    pub start: u32,
    pub length: u32,
}

// No part: it is empty, at the buffer's start.
pub fn no_part() -> Part
    ensures { result ≡ no_part }
{
    Part {
        start: 0,
        length: 0,
    }
}

// The part as a slice of the lent buffer.
#[tactic(auto, using(byte_layout::proofs::Copies::bytes_taken))]
pub fn slice(buf: &[u8], part: Part) -> &[u8]
    requires { part.start + part.length ≤ length buf.now }
    ensures { PartOf result buf.entry part }
{
    let start = part.start as usize;
    let length = part.length as usize;
    &buf[start..start + length]
}
