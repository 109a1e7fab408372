// What the programs that run cases of adding share: each add, tried on a copy of a buffer, and its line: the answer, and how many of the
// buffer's bytes changed. In a buffer of 165s an attribute of n bytes changes n of them and one of the head's count.
#![tactic(auto)]

pub mod context;
pub mod full;

use cases_shared::show;
use cases_text::print;
use refusals::Refusal;
use std::io;

pub fn line(
    rt: &impl Print,
    label: &[u8],
    answer: Result<u32, Refusal>,
    changed: usize,
) -> io::Result<()> {
    print::words(rt, label)?;
    show::answer(rt, answer)?;
    println!(rt; ", bytes changed {changed}")
}

pub fn changed<const N: usize>(before: &[u8; N], after: &[u8; N]) -> usize {
    print::differences(before, after)
}

pub fn add<const N: usize, F: FnOnce(&mut [u8]) -> Result<u32, Refusal>>(
    rt: &impl Print,
    label: &[u8],
    before: [u8; N],
    add: F,
) -> io::Result<()>
    requires { F.IsAlwaysCallable add }
{
    let mut after = before;
    let answer = add(&mut after);
    line(rt, label, answer, changed(&before, &after))
}
