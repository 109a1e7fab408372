// The memory map: entries up to the attribute's end.
pub const ENTRIES: usize = 8;
