// The records of the attributes of a type.
ghost use Rattle.std.specs.Prelude.{◌≡◌};
ghost use Rattle.ultra_format.specs.Decoding.{context_of};
ghost use Rattle.ultra_locating.specs.Passing.{Accepts};
ghost use Rattle.export_list.specs.ExportList.{gathered};
ghost use Rattle.export_list.specs.AttributeEntries.{AttributeAt, becomes};
ghost use Rattle.export_records.specs.Rows.{rows_put, RowsFit};

use crate::{ranges, store};
use export_sizes::Extent;
use ultra_layout::{attribute, command_line, entry, head, map, platform, types};

// Those of the attribute at `at`, where it is of type `kind`.
fn of_attribute(buf: &[u8], at: usize, kind: u32, out: &mut [u8], m: Extent) -> Extent
    requires attribute_at { AttributeAt buf.now at }
    requires rows_fit { RowsFit out.old m (becomes buf.now at kind) }
    ensures { (out.new, result) ≡ rows_put (out.old, m) (becomes buf.now at kind) }
{
    if attribute::kind(buf, at) != kind {
        return m;
    }
    let size = attribute::size(buf, at) as usize;
    match kind {
        types::PLATFORM => store::pointer(platform::rsdp(buf, at), out, m),
        types::MEMORY_MAP => ranges::all(
            buf,
            at + map::ENTRIES,
            (size - map::ENTRIES) / entry::WIDTH,
            out,
            m,
        ),
        types::MODULE => store::file(buf, at, out, m),
        types::COMMAND_LINE => store::line(
            buf,
            at + command_line::TEXT,
            size - command_line::TEXT,
            out,
            m,
        ),
        _ => m,
    }
}

// Those of all attributes of type `kind`. The walk is that of export_sizes, which says why no closure is passed to one walk.
pub fn of_type(buf: &[u8], kind: u32, out: &mut [u8], before: Extent) -> Extent
    requires accepts { Accepts buf.now }
    requires rows_fit { RowsFit out.old before (gathered kind (context_of buf.now).attributes) }
    ensures { (out.new, result) ≡ rows_put (out.old, before) (gathered kind (context_of buf.now).attributes) }
{
    let count = head::count(buf);
    let mut m = before;
    let mut at = head::WIDTH;
    for _ in 0..count {
        m = of_attribute(buf, at, kind, out, m);
        at += attribute::size(buf, at) as usize;
    }
    m
}
