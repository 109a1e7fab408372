// What the attributes of a type add.
ghost use Rattle.std.specs.Prelude.{◌≡◌, ◌+◌, ◌≤◌};
ghost use Rattle.ultra_format.specs.Decoding.{context_of};
ghost use Rattle.ultra_locating.specs.Passing.{Accepts};
ghost use Rattle.export_list.specs.ExportList.{pointer_entries, gathered};
ghost use Rattle.export_list.specs.AttributeEntries.{AttributeAt, becomes};
ghost use Rattle.export_sizes.specs.Extents.{grown};

use crate::Extent;
use ultra_layout::{attribute, command_line, entry, head, map, module, platform, types};

// A record for an RSDP address, unless it is 0.
#[tactic(auto, using(export_list::proofs::BareLaws::bare_strings, crate::proofs::ExtentLaws::grown_none, crate::proofs::ExtentLaws::extent_is), unfolding(export_list::specs::ExportList::pointer_entries))]
fn pointer(address: u64, m: Extent) -> Extent
    requires { m.count ≤ 4294967296 }
    ensures { (result ≡ grown m (pointer_entries address)) × (result.count ≤ m.count + 1) × (result.width ≤ m.width) }
{
    if address == 0 {
        m
    } else {
        Extent {
            count: m.count + 1,
            ..m
        }
    }
}

// What the attribute at `at` adds, where it is of type `kind`.
fn of_attribute(buf: &[u8], at: usize, kind: u32, m: Extent) -> Extent
    requires attribute_at { AttributeAt buf.now at }
    requires count_bound { (m.count ≤ 2147483648) × (m.width ≤ 2147483648) }
    ensures { (result ≡ grown m (becomes buf.now at kind)) × (result.count ≤ m.count + 65536) × (result.width ≤ m.width + 65536) }
{
    if attribute::kind(buf, at) != kind {
        return m;
    }
    let size = attribute::size(buf, at) as usize;
    match kind {
        types::PLATFORM => pointer(platform::rsdp(buf, at), m),
        types::MEMORY_MAP => Extent {
            count: m.count + ((size - map::ENTRIES) / entry::WIDTH) as u64,
            ..m
        },
        types::MODULE => Extent {
            count: m.count + 1,
            width: m.width
                + (byte_layout::text_length(buf, at + module::NAME, module::NAME_WIDTH) as u64 + 2),
        },
        types::COMMAND_LINE => Extent {
            count: m.count + 1,
            width: m.width
                + (byte_layout::text_length(
                    buf,
                    at + command_line::TEXT,
                    size - command_line::TEXT,
                ) as u64
                    + 1),
        },
        _ => m,
    }
}

// What all attributes of type `kind` add. Crates export_records and export_strings walk over them the same way: a walk that takes its step
// as a closure does not prove, since what the step asks holds at an attribute alone.
pub fn of_type(buf: &[u8], kind: u32, first: Extent) -> Extent
    requires accepts { Accepts buf.now }
    requires count_bound { (first.count ≤ 1073741824) × (first.width ≤ 1073741824) }
    ensures { (result ≡ grown first (gathered kind (context_of buf.now).attributes)) × (result.count ≤ first.count + 67108864) × (result.width ≤ first.width + 67108864) }
{
    let count = head::count(buf);
    let mut m = first;
    let mut at = head::WIDTH;
    for _ in 0..count {
        m = of_attribute(buf, at, kind, m);
        at += attribute::size(buf, at) as usize;
    }
    m
}
