// The list that a context is exported to (request R-6) stands in specs/. Here is the tag of a range.
#![tactic(auto)]

ghost use Rattle.std.specs.Prelude.{◌≡◌};
ghost use Rattle.export_list.specs.ExportList.{tag_of};

// Map types of the Ultra protocol that have a tag of their own. A type is any 64 bits, so these are numbers and no enum.
const FREE: u64 = 1;

const LOADER_RECLAIMABLE: u64 = 4294901761;

const KERNEL_STACK: u64 = 4294901763;

const KERNEL_BINARY: u64 = 4294901764;

// "RSDP with size 20"
pub const RSDP_SIZE: u64 = 20;

// The tag of a range of map type `kind`.
#[tactic(auto, unfolding(crate::specs::ExportList::tag_of))]
pub fn tag_of(kind: u64) -> u32
    ensures { result ≡ tag_of kind }
{
    match kind {
        FREE => handover_format::HANDOVER_FREE,
        LOADER_RECLAIMABLE => handover_format::HANDOVER_LOADER,
        KERNEL_STACK => handover_format::HANDOVER_STACK,
        KERNEL_BINARY => handover_format::HANDOVER_KERNEL,
        _ => handover_format::HANDOVER_RESERVED,
    }
}
