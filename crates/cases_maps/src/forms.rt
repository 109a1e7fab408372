// A map after a platform and a kernel, in its three forms: given as numbers, given as bytes, and read. The context that is read is laid out
// by hand, since an add would refuse the map.
ghost use Rattle.std.specs.Prelude.{◌+◌, ◌*◌, ◌≤◌, length};

use cases_contexts::build;
use cases_text::print;
use refusals::Refusal;
use std::io;

// A callee that names the array's length owes no proof of it.
fn put_front(buf: &mut [u8], front: &[u8; 1024]) {
    if 1024 <= buf.len() {
        byte_layout::store(front, buf, 0);
    }
}

// A platform and a kernel, and at 432 the header of a map, which a count of 2 leaves past the used length.
fn front(buf: &mut [u8], count: u64, size: u64) {
    let mut front = [0u8; 1024];
    build::head(&mut front, count);
    build::platform_and_kernel(&mut front, 88);
    build::header(&mut front, 432, 3, size);
    put_front(buf, &front);
}

// The map's numbers, each in eight bytes, after its header.
fn body(buf: &mut [u8], numbers: &[u64])
    requires { 440 + 8 * length numbers.now ≤ length buf.old }
{
    for (i, number) in numbers.iter().enumerate() {
        words::store_u64(buf, 440 + 8 * i, *number);
    }
}

fn given(numbers: &[u64]) -> Result<u32, Refusal> {
    let mut buf = [0u8; 65536];
    front(&mut buf, 2, 0);
    ultra_building::add_map(&mut buf, numbers)
}

// The form in which C gives a map.
fn bytes(entries: &[u8]) -> Result<u32, Refusal> {
    let mut buf = [0u8; 65536];
    front(&mut buf, 2, 0);
    ultra_building::members::add_map(&mut buf, entries)
}

fn read(buf: &[u8]) -> Result<u32, Refusal> {
    Ok(ultra_reading::read(buf)?.used)
}

fn show(rt: &impl Print, before: &[u8], answer: Result<u32, Refusal>) -> io::Result<()> {
    print::words(rt, before)?;
    match answer {
        Ok(used) => print!(rt; "done {used}"),
        Err(r) => print!(rt; "{} at {}", r.number, r.offset),
    }
}

// The map's bytes are those of the context, from 440 up to `end`. What follows there are zeros, so that a reader who goes on meets type 0.
fn line(
    rt: &impl Print,
    label: &[u8],
    numbers: &[u64],
    context: &[u8],
    end: usize,
) -> io::Result<()>
    requires { (440 ≤ end) × (end ≤ length context.now) }
{
    print::words(rt, label)?;
    show(rt, b": given ", given(numbers))?;
    show(rt, b", bytes ", bytes(&context[440..end]))?;
    show(rt, b", read ", read(context))?;
    print::words(rt, b"\n")
}

// Up to 16,384 numbers, and up to 40 bytes more.
pub fn judge(rt: &impl Print, label: &[u8], numbers: &[u64], more: u64) -> io::Result<()> {
    if 16384 < numbers.len() {
        return Ok(());
    }
    if 40 < more {
        return Ok(());
    }
    let size = 8 + 8 * numbers.len() + more as usize;
    let mut context = [0u8; 131552];
    front(&mut context, 3, size as u64);
    body(&mut context, numbers);
    line(rt, label, numbers, &context, 432 + size)
}
