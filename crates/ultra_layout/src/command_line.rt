pub const LEAST_SIZE: u32 = 16;

// The text, up to the attribute's end.
pub const TEXT: usize = 8;
