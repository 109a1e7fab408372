// The bytes of a new attribute, written over the front of a lent part of the buffer: a body writer a type. What is written is one
// definition for all types, `new_bytes` of ultra_format/specs/Additions.antt; silent bytes are zero. Members come one by one and texts as
// slices, so that a call from C puts no record with texts on the stack; a framebuffer, numbers only, is its record.
#![tactic(auto)]

pub mod command_line;
pub mod framebuffer;
pub mod kernel;
pub mod map;
pub mod module;
pub mod platform;

ghost use Rattle.std.specs.Prelude.{◌≡◌, ◌≤◌, length};
ghost use Rattle.byte_layout.specs.Fields.{cells, filled};
ghost use Rattle.byte_layout.specs.Stored.{over};
ghost use Rattle.ultra_writing.specs.Leading.{header_fields};

// "Each attribute begins with type u32 and size u32"
fn header(part: &mut [u8], kind: u32, size: u32)
    requires { 8 ≤ length part.old }
    ensures { part.new ≡ over (filled (cells (header_fields kind size))) part.old }
{
    words::store_u32(part, 0, kind);
    words::store_u32(part, ultra_layout::attribute::SIZE, size);
}
