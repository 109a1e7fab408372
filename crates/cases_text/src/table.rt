// Tables of cases. A row is a label, a colon and what the case is given after a blank, and ends with a newline. No label has a colon.
ghost use Rattle.std.specs.Iterator.{at_most};
ghost use Rattle.std.specs.Prelude.{◌≡◌, ◌+◌, ◌≤◌, IfSome, IsOk, length};

use std::io;

// Tries each row, newline included, in order, up to the first error. Every error is a row's.
pub fn try_rows<F: Fn(&[u8]) -> io::Result<()>>(table: &[u8], case: F) -> io::Result<()>
    requires { F.IsAlwaysCallable case }
    ensures { ((row : _) (r : _) → F.post case row r → IsOk r) → IsOk result }
{
    for row in table.split_inclusive(|b| *b == b'\n') {
        case(row)?;
    }
    Ok(())
}

fn colon(row: &[u8]) -> usize
    ensures { result ≤ length row.now }
{
    row.iter().position(|b| *b == b':').unwrap_or(row.len())
}

pub fn label(row: &[u8]) -> &[u8]
    ensures { length result.now ≤ length row.now }
{
    &row[..colon(row)]
}

// The letter for its kind that a row begins with, and the label, which is from the third byte on.
pub fn kind(row: &[u8]) -> Option<(u8, &[u8])>
    ensures { IfSome result (λ (_, l). length l.now + 2 ≤ length row.now) }
{
    match row {
        [kind, _, rest @ ..] => Some((*kind, label(rest))),
        _ => None,
    }
}

// What the case is given, as bytes.
pub fn given(row: &[u8]) -> &[u8]
    ensures { length result.now ≤ length row.now }
{
    let end = row.len().saturating_sub(1);
    row.get(colon(row) + 2..end).unwrap_or(b"")
}

// The number with one more digit, where it stays below 2^64.
fn with_digit(number: u64, byte: u8) -> u64 {
    if byte < b'0' {
        return number;
    }
    if 1844674407370955161 < number {
        return number;
    }
    (10 * number).wrapping_add((byte - b'0') as u64)
}

// Puts what the case is given, as numbers, in the place of zeros: decimal digits, and a blank before each. Answers how many there are. Digits
// after the blank of one that has no place go to the last that has one.
pub fn put_numbers(row: &[u8], numbers: &mut [u64]) -> usize
    ensures { result ≤ length numbers.new }
{
    let mut count = 0;
    for byte in &row[colon(row)..] {
        if *byte == b' ' {
            count = numbers.len().min(count + 1);
        } else if let Some(number) = numbers[..count].last_mut() {
            *number = with_digit(*number, *byte);
        }
    }
    count
}

// The same as an array, with zeros after them.
pub fn numbers<const N: usize>(row: &[u8]) -> [u64; N] {
    let mut numbers = [0; N];
    put_numbers(row, &mut numbers);
    numbers
}

// A row in two parts, as `rows` hands it out. No program here goes over a table by `rows`.
#[derive(Clone, Copy)]
pub struct Row<'a> {
    pub label: &'a [u8],
    // As bytes, without the newline.
    pub given: &'a [u8],
}

impl<'a> Row<'a> {
    // The letter for its kind that the label begins with, and the row without it and the blank after it.
    pub fn kind(self) -> Option<(u8, Row<'a>)>
        ensures { IfSome result (λ (_, row). length row.label.now + 2 ≡ length self.entry.label.now) }
    {
        match self.label {
            [kind, _, label @ ..] => Some((*kind, Row { label, ..self })),
            _ => None,
        }
    }

    // Puts what the case is given, as numbers, in the place of zeros: decimal digits, with one blank or more between. Answers how many there
    // are; what is more than the places is left out.
    pub fn put_numbers(self, numbers: &mut [u64]) -> usize
        ensures { result ≤ length numbers.new }
    {
        let mut count = 0;
        let words = self
            .given
            .split(|b| *b == b' ')
            .filter(|word| !word.is_empty());
        for digits in words {
            let Some(number) = numbers.get_mut(count) else {
                break;
            };
            *number = decimal(digits);
            count += 1;
        }
        count
    }

    // The same as an array, with zeros after them.
    pub fn numbers<const N: usize>(self) -> [u64; N] {
        let mut numbers = [0; N];
        self.put_numbers(&mut numbers);
        numbers
    }
}

// The number that the digits are, below 2^64.
fn decimal(digits: &[u8]) -> u64 {
    digits
        .iter()
        .filter_map(|byte| char::from(*byte).to_digit(10))
        .fold(
            0u64,
            |number, digit| number.wrapping_mul(10).wrapping_add(u64::from(digit)),
        )
}

// The rows that are left of a table, in order.
#[derive(Drop)]
pub struct RowsLeft<'a>(&'a [u8]);

pub fn rows(table: &[u8]) -> RowsLeft<'_>
    ensures { result.0.now ≡ table.now }
{
    RowsLeft(table)
}

impl<'a> Iterator for RowsLeft<'a> {
    type Item = Row<'a>;

    ghost remaining = { λ s. at_most (length s.0.now) };

    fn next(&mut self) -> Option<Row<'a>> {
        let row = self.0.split_inclusive(|b| *b == b'\n').next()?;
        self.0 = &self.0[row.len()..];
        Some(Row {
            label: label(row),
            given: given(row),
        })
    }
}

#[cfg(test)]
mod tests {
    use super::*;
    use std::test::Fail;

    // A row of a kind, with two blanks, more numbers than places, and one past 64 bits; a short label; and a last row without its newline.
    #[test]
    fn rows_one_by_one(rt: HostRuntime) -> Result<(), Fail> {
        let mut left = rows(b"e a: 1  2 18446744073709551617 4\nb: 5 /\nc: 6 7");
        let first = left.next().ok_or("no first row")?;
        assert_eq!(rt; first.label, b"e a".as_slice());
        assert_eq!(rt; first.given, b"1  2 18446744073709551617 4".as_slice());
        let (kind, rest) = first.kind().ok_or("no kind")?;
        assert_eq!(rt; kind, b'e');
        assert_eq!(rt; rest.label, b"a".as_slice());
        assert_eq!(rt; rest.given, first.given);
        let mut numbers = [9; 3];
        assert_eq!(rt; rest.put_numbers(&mut numbers), 3);
        assert_eq!(rt; numbers, [1, 2, 1]);
        assert_eq!(rt; rest.numbers::<6>(), [1, 2, 1, 4, 0, 0]);
        let second = left.next().ok_or("no second row")?;
        assert!(rt; second.kind().is_none());
        assert_eq!(rt; second.given, b"5 /".as_slice());
        assert_eq!(rt; second.numbers::<3>(), [5, 0, 0]);
        let last = left.next().ok_or("no last row")?;
        assert_eq!(rt; last.given, b"6 ".as_slice());
        assert_eq!(rt; last.numbers::<2>(), [6, 0]);
        assert!(rt; left.next().is_none());
        Ok(())
    }
}
