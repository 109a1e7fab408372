// The numbers of a Handover payload, and one record of it. The format itself is defined in specs/.
#![tactic(auto)]

mod records;

pub use records::{Record, end_suits, load, names_meta, names_name};

// "magic 0xc001b001"
pub const MAGIC: u32 = 3221336065;

// The tags that a rule speaks of. Every other of the 32 bits passes, so these are numbers and no enum.
pub const HANDOVER_END: u32 = 4294967295;

pub const HANDOVER_FILE: u32 = 3418582331;

pub const HANDOVER_CMDLINE: u32 = 1129398468;

// The others that exporting gives.
pub const HANDOVER_FREE: u32 = 0;

pub const HANDOVER_SELF: u32 = 2723125389;

pub const HANDOVER_STACK: u32 = 4133173531;

pub const HANDOVER_KERNEL: u32 = 3217496864;

pub const HANDOVER_LOADER: u32 = 4059565094;

pub const HANDOVER_RSDP: u32 = 2398264344;

pub const HANDOVER_RESERVED: u32 = 3095665965;
