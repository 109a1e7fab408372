// Parts of the lines that programs print.
ghost use Rattle.std.specs.Prelude.{◌+◌, ◌<◌, ◌≤◌, IfOk, length};

use std::fmt::Display;
use std::io;

// The bytes as they are.
pub fn words(rt: &impl Print, bytes: &[u8]) -> io::Result<()> {
    rt.write_all(bytes)
}

// Each number, after a blank.
pub fn numbers<T: Display>(rt: &impl Print, numbers: &[T]) -> io::Result<()> {
    for number in numbers {
        print!(rt; " {number}")?;
    }
    Ok(())
}

// The same in rows of sixteen, each on a line of its own with the offset in front.
pub fn rows(rt: &impl Print, bytes: &[u8]) -> io::Result<()> {
    for (index, row) in bytes.chunks(16).enumerate() {
        print!(rt; "\n  {}:", 16 * index)?;
        numbers(rt, row)?;
    }
    Ok(())
}

// How many bytes at the same place differ.
pub fn differences(left: &[u8], right: &[u8]) -> usize
    requires { length left.now ≤ length right.now }
{
    left.iter().zip(right).filter(|(a, b)| a != b).count()
}

// The same from byte `start` up to `end`; 0 where one of the two has fewer.
pub fn differences_in(left: &[u8], right: &[u8], start: usize, end: usize) -> usize {
    match (left.get(start..end), right.get(start..end)) {
        (Some(left), Some(right)) => differences(left, right),
        _ => 0,
    }
}

// A byte of a field: as it is in the text, `!` if it is not zero although a zero came before. Answers how many zeros there are so far.
fn field_byte(rt: &impl Print, byte: u8, zeros: u64) -> io::Result<u64>
    requires { zeros < 256 }
    ensures { IfOk result (λ n. n ≤ zeros + 1) }
{
    if byte == 0 {
        return Ok(zeros + 1);
    }
    let shown = if zeros == 0 { byte } else { b'!' };
    words(rt, &[shown])?;
    Ok(zeros)
}

// A field with a text in it: every byte is shown, or counted as a zero.
pub fn field(rt: &impl Print, bytes: &[u8]) -> io::Result<()>
    requires { length bytes.now ≤ 256 }
{
    let mut zeros = 0;
    for byte in bytes {
        zeros = field_byte(rt, *byte, zeros)?;
    }
    print!(rt; " and zeros {zeros}")
}
