// The records of the payload of an accepted context. Each function stores its records after the `m.count` that there are, the first one's
// strings at the offset `m.width` of the table, and answers how far they then reach.
#![tactic(auto)]

mod attributes;
mod ranges;
mod store;

ghost use Rattle.std.specs.Prelude.{◌≡◌};
ghost use Rattle.ultra_format.specs.Decoding.{context_of};
ghost use Rattle.ultra_locating.specs.Passing.{Accepts};
ghost use Rattle.export_list.specs.ExportList.{between};
ghost use Rattle.export_records.specs.Rows.{rows_put, RowsFit};

use export_sizes::Extent;
pub use store::bare;
use ultra_layout::types;

// The records between the first and the last.
pub fn between(buf: &[u8], out: &mut [u8], m: Extent) -> Extent
    requires accepts { Accepts buf.now }
    requires rows_fit { RowsFit out.old m (between (context_of buf.now).attributes) }
    ensures { (out.new, result) ≡ rows_put (out.old, m) (between (context_of buf.now).attributes) }
{
    let ranges = attributes::of_type(buf, types::MEMORY_MAP, out, m);
    let files = attributes::of_type(buf, types::MODULE, out, ranges);
    let line = attributes::of_type(buf, types::COMMAND_LINE, out, files);
    attributes::of_type(buf, types::PLATFORM, out, line)
}
