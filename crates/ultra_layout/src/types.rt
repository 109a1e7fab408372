// The types that have a row in the table. Numbers and no enum: a type is any 32 bits, and those from 7 up are accepted.
pub const PLATFORM: u32 = 1;

pub const KERNEL: u32 = 2;

pub const MEMORY_MAP: u32 = 3;

pub const MODULE: u32 = 4;

pub const COMMAND_LINE: u32 = 5;

pub const FRAMEBUFFER: u32 = 6;
