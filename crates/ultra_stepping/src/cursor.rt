// Stepping: a cursor by value, whose step answers an attribute and the following cursor.
ghost use Rattle.std.specs.Prelude.{◌≡◌};
ghost use Rattle.refusals.specs.Answers.{checked};
ghost use Rattle.ultra_stepping.specs.Stepping.{cursor_at, cursor_check, step_of};

use refusals::Refusal;
use ultra_layout::attribute;

// An attribute's type, start and size.
#[derive(Clone, Copy)]
pub struct Header {
    pub kind: u32,
    pub start: u32,
    pub size: u32,
}

// Where stepping stands: the index of the next attribute and the offset that it is looked for at.
#[derive(Clone, Copy)]
pub struct Cursor {
    pub index: u32,
    pub offset: u32,
}

// The first of 5 to 8 that a cursor's offset breaks.
fn check(buf: &[u8], offset: u32) -> Result<(), u16>
    ensures { result ≡ checked (cursor_check buf.now offset) }
{
    if offset < 8 {
        return Err(refusals::HEADER);
    }
    if offset % 8 != 0 {
        return Err(refusals::HEADER);
    }
    crate::bounds::check(buf, lent_buffers::room(buf), offset as usize)
}

impl Cursor {
    // "the first is 0 and 8"
    pub fn first() -> Self
        ensures { result ≡ cursor_at 0 8 }
    {
        Self {
            index: 0,
            offset: 8,
        }
    }

    // The attribute at the cursor with the following cursor, none at the end, or the refusal.
    pub fn step(self, buf: &[u8]) -> Result<Option<(Header, Cursor)>, Refusal>
        ensures { result ≡ step_of buf.now self }
    {
        let index = self.index;
        let offset = self.offset;
        if let Err(number) = crate::head::check(buf, 2) {
            return Err(Refusal::new(number, 0));
        }
        if words::load_u32(buf, ultra_layout::head::COUNT) <= index {
            return Ok(None);
        }
        if let Err(number) = check(buf, offset) {
            return Err(Refusal::at(number, index, offset));
        }
        let at = offset as usize;
        let kind = words::load_u32(buf, at);
        let size = words::load_u32(buf, at + attribute::SIZE);
        let header = Header {
            kind,
            start: offset,
            size,
        };
        let next = Cursor {
            index: index + 1,
            offset: offset + size,
        };
        Ok(Some((header, next)))
    }
}
