// The records that the calls share. The format itself is defined in specs/.
#![tactic(auto)]

mod records;

pub use records::{FramebufferRecord, KernelRecord, ModuleRecord, PlatformRecord, Records};
pub use refusals::Refusal;
