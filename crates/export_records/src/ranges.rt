// The ranges of the map.
ghost use Rattle.std.specs.Prelude.{◌≡◌, [], ◌∷◌, ◌+◌, ◌*◌, ◌≤◌, length};
ghost use Rattle.ultra_format.specs.Decoding.{entry_at, entries_at};
ghost use Rattle.export_list.specs.ExportList.{range_entry, range_entries};
ghost use Rattle.export_records.specs.Rows.{rows_put, RowsFit};

use export_sizes::Extent;
use ultra_layout::entry;

// The range whose entry is at `at`.
fn range(buf: &[u8], at: usize, out: &mut [u8], m: Extent) -> Extent
    requires at_in_bounds { at + 24 ≤ length buf.now }
    requires rows_fit { RowsFit out.old m (range_entry (entry_at buf.now at) ∷ []) }
    ensures { (out.new, result) ≡ rows_put (out.old, m) (range_entry (entry_at buf.now at) ∷ []) }
{
    let tag = export_list::tag_of(entry::kind(buf, at));
    let start = entry::address(buf, at);
    let size = entry::size(buf, at);
    crate::store::bare(out, m, tag, start, size)
}

// The ranges of the `n` entries from `first` on.
pub fn all(buf: &[u8], first: usize, n: usize, out: &mut [u8], before: Extent) -> Extent
    requires n_in_bounds { (first + 24 * n ≤ length buf.now) × (n ≤ 65536) }
    requires rows_fit { RowsFit out.old before (range_entries (entries_at buf.now first n)) }
    ensures { (out.new, result) ≡ rows_put (out.old, before) (range_entries (entries_at buf.now first n)) }
{
    let mut m = before;
    for i in 0..n {
        m = range(buf, first + entry::WIDTH * i, out, m);
    }
    m
}
