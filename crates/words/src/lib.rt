// Little-endian numbers in byte slices. Every load and store is bytewise in the source, since a lent buffer may start
// anywhere; each function by itself compiles to one move.
#![tactic(auto)]

ghost use Rattle.std.specs.Prelude.{◌≡◌, ◌+◌, ◌≤◌, ◌<◌, length};
ghost use Rattle.words.specs.Words.{u16_at, u32_at, u64_at, little_endian, replaced};

fn widened(byte: u8) -> u16
    ensures { (result ≡ byte) × (result < 256) }
{
    byte as u16
}

pub fn load_u16(bytes: &[u8], at: usize) -> u16
    requires { at + 2 ≤ length bytes.now }
    ensures { result ≡ u16_at bytes.now at }
{
    widened(bytes[at]) + widened(bytes[at + 1]) * 256
}

pub fn load_u32(bytes: &[u8], at: usize) -> u32
    requires { at + 4 ≤ length bytes.now }
    ensures { result ≡ u32_at bytes.now at }
{
    let low = load_u16(bytes, at) as u32;
    let high = load_u16(bytes, at + 2) as u32;
    low + high * 65536
}

pub fn load_u64(bytes: &[u8], at: usize) -> u64
    requires { at + 8 ≤ length bytes.now }
    ensures { result ≡ u64_at bytes.now at }
{
    let low = load_u32(bytes, at) as u64;
    let high = load_u32(bytes, at + 4) as u64;
    low + high * 4294967296
}

pub fn store_u16(bytes: &mut [u8], at: usize, number: u16)
    requires { at + 2 ≤ length bytes.old }
    ensures { bytes.new ≡ replaced bytes.old at 2 (little_endian 2 number) }
{
    bytes[at] = (number % 256) as u8;
    bytes[at + 1] = (number / 256 % 256) as u8;
}

pub fn store_u32(bytes: &mut [u8], at: usize, number: u32)
    requires { at + 4 ≤ length bytes.old }
    ensures { bytes.new ≡ replaced bytes.old at 4 (little_endian 4 number) }
{
    store_u16(bytes, at, (number % 65536) as u16);
    store_u16(bytes, at + 2, (number / 65536) as u16);
}

pub fn store_u64(bytes: &mut [u8], at: usize, number: u64)
    requires { at + 8 ≤ length bytes.old }
    ensures { bytes.new ≡ replaced bytes.old at 8 (little_endian 8 number) }
{
    store_u32(bytes, at, (number % 4294967296) as u32);
    store_u32(bytes, at + 4, (number / 4294967296) as u32);
}
