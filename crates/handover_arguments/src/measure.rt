// How many bytes the payload takes. A length given may be any number of 64 bits, so no sum goes past 65,537: that is past the room, whatever
// comes after it.
ghost use Rattle.std.specs.Prelude.{◌≡◌, ◌+◌, ◌*◌, ◌≤◌, min, length};
ghost use Rattle.handover_format.specs.Payloads.{names_name, names_meta, record_start};
ghost use Rattle.handover_arguments.specs.PayloadGiven.{agent_part, name_part, meta_part, length_given};
ghost use Rattle.handover_arguments.specs.Measures.{width_if, strings_start};

use crate::parts::length_at;

// `total` with a string and its closing zero, where it is named.
#[tactic(auto, unfolding(crate::specs::Measures::width_if))]
fn with_string(total: u64, named: bool, size: u64) -> u64
    requires { total ≤ 65537 }
    ensures { result ≡ min (total + width_if named size) 65537 }
{
    if named {
        total.saturating_add(size).saturating_add(1).min(65537)
    } else {
        total
    }
}

// How many bytes the agent's string takes: the records' strings start after it.
#[tactic(auto, unfolding(crate::specs::Measures::width_if))]
pub fn agent_width(parts: &[u64]) -> u64
    ensures { result ≡ min (length_given parts.now agent_part + 1) 65537 }
{
    with_string(0, true, length_at(parts, 0))
}

// `total` with the name of record `i`, which has this tag.
pub fn with_name(total: u64, tag: u32, parts: &[u64], i: usize) -> u64
    requires { (total ≤ 65537) × (i ≤ 1024) }
    ensures { result ≡ min (total + width_if (names_name tag) (length_given parts.now (name_part i))) 65537 }
{
    with_string(
        total,
        handover_format::names_name(tag),
        length_at(parts, 4 * i + 2),
    )
}

// `total` with its meta. One function for both would take the test and the place as parameters, and so be `with_string`.
pub fn with_meta(total: u64, tag: u32, parts: &[u64], i: usize) -> u64
    requires { (total ≤ 65537) × (i ≤ 1024) }
    ensures { result ≡ min (total + width_if (names_meta tag) (length_given parts.now (meta_part i))) 65537 }
{
    with_string(
        total,
        handover_format::names_meta(tag),
        length_at(parts, 4 * i + 4),
    )
}

// How many bytes the strings take.
#[tactic(auto, using(crate::proofs::MeasureLaws::start_first, crate::proofs::MeasureLaws::start_next))]
fn table_length(records: &[u8], parts: &[u64], count: usize) -> u64
    requires { (32 * count ≤ length records.now) × (count ≤ 1024) }
    ensures { result ≡ min (strings_start records.now parts.now count) 65537 }
{
    let mut total = agent_width(parts);
    for i in 0..count {
        let tag = words::load_u32(records, 32 * i);
        total = with_name(total, tag, parts, i);
        total = with_meta(total, tag, parts, i);
    }
    total
}

// How many bytes head, records and strings take.
pub fn size(records: &[u8], parts: &[u64], count: usize) -> u64
    requires { (32 * count ≤ length records.now) × (count ≤ 1024) }
    ensures { result ≡ record_start count + min (strings_start records.now parts.now count) 65537 }
{
    16 + 32 * count as u64 + table_length(records, parts, count)
}
