// One record.
ghost use Rattle.std.specs.Prelude.{◌≡◌, false, [], ◌∷◌, ◌+◌, ◌≤◌, length};
ghost use Rattle.byte_layout.specs.Stored.{text_at};
ghost use Rattle.handover_format.specs.Payloads.{names_name, names_meta};
ghost use Rattle.ultra_format.specs.Decoding.{module_at};
ghost use Rattle.export_list.specs.ExportList.{bare, file_entry, line_entry, pointer_entries};
ghost use Rattle.export_records.specs.Rows.{rows_put, RowsFit};

use export_sizes::Extent;
use handover_format::Record;
use ultra_layout::module;

// A record that names no string.
pub fn bare(out: &mut [u8], m: Extent, tag: u32, start: u64, size: u64) -> Extent
    requires tag_value { (names_name tag ≡ false) × (names_meta tag ≡ false) }
    requires rows_fit { RowsFit out.old m (bare tag start size ∷ []) }
    ensures { (out.new, result) ≡ rows_put (out.old, m) (bare tag start size ∷ []) }
{
    handover_writing::row(
        out,
        16 + 32 * m.count as usize,
        Record {
            tag,
            start,
            size,
            ..Record::default()
        },
    );
    Extent {
        count: m.count + 1,
        ..m
    }
}

// The RSDP address, unless it is 0.
#[tactic(auto, using(crate::proofs::RowLaws::rows_put_none), unfolding(export_list::specs::ExportList::pointer_entries))]
pub fn pointer(address: u64, out: &mut [u8], m: Extent) -> Extent
    requires { RowsFit out.old m (pointer_entries address) }
    ensures { (out.new, result) ≡ rows_put (out.old, m) (pointer_entries address) }
{
    if address == 0 {
        m
    } else {
        bare(
            out,
            m,
            handover_format::HANDOVER_RSDP,
            address,
            export_list::RSDP_SIZE,
        )
    }
}

// The file of the module at `at`: its name, and after it the empty meta.
pub fn file(buf: &[u8], at: usize, out: &mut [u8], m: Extent) -> Extent
    requires at_in_bounds { at + 96 ≤ length buf.now }
    requires rows_fit { RowsFit out.old m (file_entry (module_at buf.now at) ∷ []) }
    ensures { (out.new, result) ≡ rows_put (out.old, m) (file_entry (module_at buf.now at) ∷ []) }
{
    let start = module::address(buf, at);
    let size = module::size(buf, at);
    let name = byte_layout::text_length(buf, at + module::NAME, module::NAME_WIDTH) as u64;
    handover_writing::row(
        out,
        16 + 32 * m.count as usize,
        Record {
            tag: handover_format::HANDOVER_FILE,
            start,
            size,
            name: m.width as u32,
            meta: (m.width + (name + 1)) as u32,
            ..Record::default()
        },
    );
    Extent {
        count: m.count + 1,
        width: m.width + (name + 2),
    }
}

// The command line whose text is in the `width` bytes from `at` on.
pub fn line(buf: &[u8], at: usize, width: usize, out: &mut [u8], m: Extent) -> Extent
    requires width_in_bounds { at + width ≤ length buf.now }
    requires rows_fit { RowsFit out.old m (line_entry (text_at buf.now at width) ∷ []) }
    ensures { (out.new, result) ≡ rows_put (out.old, m) (line_entry (text_at buf.now at width) ∷ []) }
{
    let length = byte_layout::text_length(buf, at, width) as u64;
    handover_writing::row(
        out,
        16 + 32 * m.count as usize,
        Record {
            tag: handover_format::HANDOVER_CMDLINE,
            meta: m.width as u32,
            ..Record::default()
        },
    );
    Extent {
        count: m.count + 1,
        width: m.width + (length + 1),
    }
}
