// One record: its words, and what its tag says.
ghost use Rattle.std.specs.Prelude.{◌≡◌, ◌+◌, ◌≤◌, length};
ghost use Rattle.handover_format.specs.Payloads.{names_name, names_meta};
ghost use Rattle.handover_format.specs.PayloadDecoding.{record_at};
ghost use Rattle.handover_format.specs.RecordTests.{end_suits};

// The 32 bytes of a record by its words. What `name` and `meta` mean depends on the tag.
#[derive(Clone, Copy, Default)]
pub struct Record {
    pub tag: u32,
    pub flags: u32,
    pub start: u64,
    pub size: u64,
    pub name: u32,
    pub meta: u32,
}

// The record at `at`.
pub fn load(bytes: &[u8], at: usize) -> Record
    requires { at + 32 ≤ length bytes.now }
    ensures { result ≡ record_at bytes.now at }
{
    Record {
        tag: words::load_u32(bytes, at),
        flags: words::load_u32(bytes, at + 4),
        start: words::load_u64(bytes, at + 8),
        size: words::load_u64(bytes, at + 16),
        name: words::load_u32(bytes, at + 24),
        meta: words::load_u32(bytes, at + 28),
    }
}

// Whether a record, the last or another, has the end tag just where it must.
pub fn end_suits(last: bool, tag: u32) -> bool
    ensures { result ≡ end_suits last tag }
{
    (tag == crate::HANDOVER_END) == last
}

// Whether a record with this tag names a string by its word `name`.
pub fn names_name(tag: u32) -> bool
    ensures { result ≡ names_name tag }
{
    tag == crate::HANDOVER_FILE
}

// The same of its word `meta`.
pub fn names_meta(tag: u32) -> bool
    ensures { result ≡ names_meta tag }
{
    names_name(tag) || tag == crate::HANDOVER_CMDLINE
}
