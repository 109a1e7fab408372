// Reads that go on after short ones.
#![tactic(auto)]

ghost use Rattle.std.specs.Prelude.{◌≤◌, length};

use std::io::Read;

// What one read puts at the front of `buf`; none where it fails, which counts as the input's end.
fn read_some<R: Read>(input: &mut R, buf: &mut [u8]) -> usize
    ensures { result ≤ length buf.new }
{
    match input.read(buf) {
        Ok(n) => n,
        Err(_) => 0,
    }
}

// Reads until `buf` is full or the input ends, and answers how many bytes are at its front. How far a turn comes is the read's to say, so this
// is no `for`.
pub fn read_full<R: Read>(input: &mut R, buf: &mut [u8]) -> usize
    ensures { result ≤ length buf.new }
{
    let mut done = 0;
    while done < buf.len() {
        let n = read_some(input, &mut buf[done..]);
        if n == 0 {
            break;
        }
        done += n;
    }
    done
}
