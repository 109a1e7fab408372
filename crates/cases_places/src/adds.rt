// An add by its type and a variant: 0 is what meets every rule on members, and what else there is stands at each.
use cases_shared::given;
use refusals::Refusal;

// 1: type 0.
fn platform(buf: &mut [u8], variant: u64) -> Result<u32, Refusal> {
    let mut record = given::platform();
    if variant == 1 {
        record.kind = 0;
    }
    ultra_building::add_platform(buf, record)
}

// 1: partition type 0. 2: an end above 2^64.
fn kernel(buf: &mut [u8], variant: u64) -> Result<u32, Refusal> {
    let mut record = given::kernel();
    if variant == 1 {
        record.partition_type = 0;
    }
    if variant == 2 {
        record.virtual_base = 18446744073709547520;
    }
    ultra_building::add_kernel(buf, record)
}

// No entries. 1: one entry. 2: four numbers. 3: two entries in the wrong order.
fn map(buf: &mut [u8], variant: u64) -> Result<u32, Refusal> {
    match variant {
        0 => ultra_building::add_map(buf, &[]),
        1 => ultra_building::add_map(buf, &[0, 4096, 1]),
        2 => ultra_building::add_map(buf, &[0, 4096, 1, 4096]),
        _ => ultra_building::add_map(buf, &[0, 4097, 1, 4096, 1, 1]),
    }
}

// 1: type 0. 2: a name of bytes 128.
fn module(buf: &mut [u8], variant: u64) -> Result<u32, Refusal> {
    let mut record = given::module();
    if variant == 1 {
        record.kind = 0;
    }
    if variant == 2 {
        record.name = [128u8; 64];
    }
    ultra_building::add_module(buf, record)
}

// Five bytes. 1: a byte 128 after them. 2: seven bytes. 3: eight bytes.
fn command_line(buf: &mut [u8], variant: u64) -> Result<u32, Refusal> {
    match variant {
        0 => ultra_building::add_command_line(buf, b"quiet"),
        1 => ultra_building::add_command_line(buf, b"quiet\x80"),
        2 => ultra_building::add_command_line(buf, b"1234567"),
        _ => ultra_building::add_command_line(buf, b"12345678"),
    }
}

// 1: format 0.
fn framebuffer(buf: &mut [u8], variant: u64) -> Result<u32, Refusal> {
    let mut record = given::framebuffer();
    if variant == 1 {
        record.format = 0;
    }
    ultra_building::add_framebuffer(buf, record)
}

pub fn add(buf: &mut [u8], kind: u64, variant: u64) -> Result<u32, Refusal> {
    match kind {
        1 => platform(buf, variant),
        2 => kernel(buf, variant),
        3 => map(buf, variant),
        4 => module(buf, variant),
        5 => command_line(buf, variant),
        _ => framebuffer(buf, variant),
    }
}
