// Several modules in one call: their records lie one after the other in a string.
use call_frames::{answers, frame};
use ultra_format::ModuleRecord;

// A record's bytes: type, address and size, 8 each, and its name.
const WIDTH: usize = 88;

// How many a call is given at most.
pub const MOST: usize = 16;

fn blank() -> ModuleRecord {
    ModuleRecord {
        kind: 0,
        name: [0u8; 64],
        address: 0,
        size: 0,
    }
}

fn module_in(bytes: &[u8; WIDTH]) -> ModuleRecord {
    ModuleRecord {
        kind: (words::load_u64(bytes, 0) % 4294967296) as u32,
        name: *bytes[24..].first_chunk().unwrap_or(&[0u8; 64]),
        address: words::load_u64(bytes, 8),
        size: words::load_u64(bytes, 16),
    }
}

// The whole records, and blank ones after them.
fn modules_in(bytes: &[u8]) -> [ModuleRecord; MOST] {
    let mut modules = [blank(); MOST];
    let (whole, _) = bytes.as_chunks::<WIDTH>();
    for (module, bytes) in modules.iter_mut().zip(whole) {
        *module = module_in(bytes);
    }
    modules
}

// How many records are whole.
pub fn count(bytes: &[u8]) -> usize {
    bytes.len() / WIDTH
}

// Makes call 25.
pub fn make(frame: &[u8], buf: &mut [u8], out: &mut [u8]) -> u32 {
    let bytes = frame::string(frame, 1);
    let n = count(bytes).min(MOST);
    let added = lent_modules::add_first(buf, modules_in(bytes), n);
    let answer = added.answer;
    answers::numbers(
        out,
        25,
        &[
            answers::number(answer),
            answers::value(answer),
            added.added as u64,
        ],
        buf,
    )
}
