// The numbers of a map, by those of a row.
ghost use Rattle.std.specs.Prelude.{◌<◌};

use crate::forms;
use std::io;

// How many bytes there are after the numbers, and then these. A row of none has no numbers and no bytes.
pub fn bytes_more(rt: &impl Print, label: &[u8], given: &[u64]) -> io::Result<()> {
    match given.split_first() {
        Some((more, numbers)) => forms::judge(rt, label, numbers, *more),
        None => forms::judge(rt, label, &[], 0),
    }
}

// The numbers of sound entries: of 4,096 bytes each, the first at 4,096. Each ends where the next begins, so that one more or less shows.
fn sound_number(index: usize) -> u64
    requires { index < 16384 }
{
    match index % 3 {
        0 => (index / 3 + 1) as u64 * 4096,
        1 => 4096,
        _ => 1,
    }
}

fn sound() -> [u64; 16384] {
    let mut numbers = [0u64; 16384];
    for i in 0..16384 {
        numbers[i] = sound_number(i);
    }
    numbers
}

// The index 0 is one that the row does not have.
fn put(numbers: &mut [u64], index: u64, number: u64) {
    if index == 0 {
        return;
    }
    if let Some(place) = numbers.get_mut(index as usize) {
        *place = number;
    }
}

// A callee that names the array's length owes no proof of it.
fn first(rt: &impl Print, label: &[u8], numbers: &[u64; 16384], count: u64) -> io::Result<()> {
    let part = numbers.get(..count as usize).unwrap_or(&[]);
    forms::judge(rt, label, part, 0)
}

// How many numbers of sound entries, and up to three that are others: the index and the number.
pub fn sound_but(rt: &impl Print, label: &[u8], given: [u64; 24]) -> io::Result<()> {
    let [count, i, first_other, j, second_other, k, third_other, ..] = given;
    let mut numbers = sound();
    put(&mut numbers, i, first_other);
    put(&mut numbers, j, second_other);
    put(&mut numbers, k, third_other);
    first(rt, label, &numbers, count)
}
