// Contexts of 1,023 and 1,024 attributes, which adds alone cannot make: a platform, a kernel, and 8 bytes for each other.
use cases_shared::given;

// Type 7 and size 8, 1,021 times.
fn sevens(buf: &mut [u8; 8704]) {
    for i in 0..1021 {
        words::store_u64(buf, 432 + 8 * i, 34359738375);
    }
}

fn count(buf: &mut [u8; 8704], number: u32) {
    words::store_u32(buf, 4, number);
}

// 1,023 attributes in 8,600 bytes.
pub fn almost() -> [u8; 8704] {
    let mut buf = [165u8; 8704];
    let _ = ultra_building::begin(&mut buf);
    let _ = ultra_building::add_platform(&mut buf, given::platform());
    let _ = ultra_building::add_kernel(&mut buf, given::kernel());
    sevens(&mut buf);
    count(&mut buf, 1023);
    buf
}

// One more: 8,608 bytes.
pub fn full(before: [u8; 8704]) -> [u8; 8704] {
    let mut buf = before;
    words::store_u64(&mut buf, 8600, 34359738375);
    count(&mut buf, 1024);
    buf
}
