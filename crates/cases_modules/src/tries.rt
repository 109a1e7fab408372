// Each call on a copy of a buffer, and its line: the answer, how many modules were added, and how many bytes changed. A module changes 96 bytes
// of a buffer of 165s, and those that are added change one byte of the count.
ghost use Rattle.std.specs.Prelude.{◌≤◌};

use crate::{buffers, lists};
use cases_adds::{context, full};
use cases_shared::{given, show};
use cases_text::print;
use std::io;
use ultra_format::ModuleRecord;
use ultra_modules::ModulesAdded;

fn line(rt: &impl Print, label: &[u8], added: ModulesAdded, changed: usize) -> io::Result<()> {
    print::words(rt, label)?;
    show::answer(rt, added.answer)?;
    println!(rt; ", added {}, bytes changed {changed}", added.added)
}

// In the first `room` bytes of the buffer, which is answered.
fn in_part(
    rt: &impl Print,
    label: &[u8],
    before: [u8; 1024],
    room: usize,
    modules: [ModuleRecord; 16],
    count: usize,
) -> io::Result<[u8; 1024]>
    requires { (room ≤ 1024) × (count ≤ 16) }
{
    let mut after = before;
    let added = lent_modules::add_first(&mut after[0..room], modules, count);
    line(rt, label, added, cases_adds::changed(&before, &after))?;
    Ok(after)
}

fn try_on(
    rt: &impl Print,
    label: &[u8],
    before: [u8; 1024],
    modules: [ModuleRecord; 16],
    count: usize,
) -> io::Result<[u8; 1024]>
    requires { count ≤ 16 }
{
    in_part(rt, label, before, 1024, modules, count)
}

// "With no modules it answers 0 with value 0 and doesn't look at the buffer."
pub fn without_modules(rt: &impl Print) -> io::Result<()> {
    let junk = [165u8; 1024];
    let good = lists::good();
    in_part(rt, b"no modules to 0 bytes", junk, 0, good, 0)?;
    in_part(rt, b"no modules to 7 bytes", junk, 7, good, 0)?;
    try_on(rt, b"no modules to 165s", junk, good, 0)?;
    try_on(rt, b"no modules to a beginning", context::begun(), good, 0)?;
    try_on(
        rt,
        b"no modules to a platform and a kernel",
        context::kernel(),
        good,
        0,
    )?;
    Ok(())
}

pub fn all_added(rt: &impl Print) -> io::Result<()> {
    let buf = context::kernel();
    let good = lists::good();
    try_on(rt, b"one module", buf, good, 1)?;
    try_on(rt, b"two modules", buf, good, 2)?;
    let after = try_on(rt, b"three modules", buf, good, 3)?;
    show::reading(rt, b"  read", ultra_reading::read(&after))?;
    try_on(
        rt,
        b"three modules, the second to the top",
        buf,
        lists::to_the_top(1),
        3,
    )?;
    Ok(())
}

// "The call stops at the first refusal"; "What went before the refused module stays".
pub fn one_refused(rt: &impl Print) -> io::Result<()> {
    let buf = context::kernel();
    try_on(
        rt,
        b"the first of three of type 0",
        buf,
        lists::untyped(0),
        3,
    )?;
    let after = try_on(
        rt,
        b"the second of three of type 0",
        buf,
        lists::untyped(1),
        3,
    )?;
    show::reading(rt, b"  read", ultra_reading::read(&after))?;
    try_on(
        rt,
        b"the second of three with byte 128 in its name",
        buf,
        lists::unreadable(1),
        3,
    )?;
    try_on(
        rt,
        b"the second of three past the top",
        buf,
        lists::past_the_top(1),
        3,
    )?;
    try_on(
        rt,
        b"the third of three of type 0",
        buf,
        lists::untyped(2),
        3,
    )?;
    try_on(
        rt,
        b"the fourth of type 0, three given",
        buf,
        lists::untyped(3),
        3,
    )?;
    Ok(())
}

pub fn in_room(rt: &impl Print) -> io::Result<()> {
    let buf = context::kernel();
    let good = lists::good();
    in_part(rt, b"three modules in 720 bytes", buf, 720, good, 3)?;
    in_part(rt, b"three modules in 719 bytes", buf, 719, good, 3)?;
    in_part(rt, b"three modules in 527 bytes", buf, 527, good, 3)?;
    in_part(
        rt,
        b"the third of type 0, in 719 bytes",
        buf,
        719,
        lists::untyped(2),
        3,
    )?;
    try_on(rt, b"16 modules in 1024 bytes", buf, good, 16)?;
    Ok(())
}

pub fn after_others(rt: &impl Print) -> io::Result<()> {
    let good = lists::good();
    try_on(rt, b"two modules to a beginning", context::begun(), good, 2)?;
    try_on(
        rt,
        b"two modules after a platform",
        context::platform(),
        good,
        2,
    )?;
    try_on(
        rt,
        b"two modules after a module",
        buffers::module(),
        good,
        2,
    )?;
    try_on(
        rt,
        b"two modules after a module and a line",
        buffers::line(),
        good,
        2,
    )?;
    try_on(
        rt,
        b"two of type 0 after a module and a line",
        buffers::line(),
        lists::untyped(0),
        2,
    )?;
    Ok(())
}

// Those of reading come first, and nothing is added.
pub fn on_refused_buffers(rt: &impl Print) -> io::Result<()> {
    let good = lists::good();
    in_part(rt, b"one module in 7 bytes", context::kernel(), 7, good, 1)?;
    try_on(rt, b"one module to major 0", buffers::major_0(), good, 1)?;
    try_on(
        rt,
        b"two modules to a platform of type 0",
        buffers::untyped_platform(),
        good,
        2,
    )?;
    try_on(
        rt,
        b"two of type 0 to a platform of type 0",
        buffers::untyped_platform(),
        lists::untyped(0),
        2,
    )?;
    Ok(())
}

fn among_many(rt: &impl Print, label: &[u8], before: [u8; 8704], count: usize) -> io::Result<()>
    requires { count ≤ 16 }
{
    let mut after = before;
    let added = lent_modules::add_first(&mut after, lists::good(), count);
    line(rt, label, added, cases_adds::changed(&before, &after))
}

// The count 1,024 differs from 1,023 in two bytes.
pub fn to_1023_attributes(rt: &impl Print) -> io::Result<()> {
    let almost = full::almost();
    among_many(rt, b"one module to 1023 attributes", almost, 1)?;
    among_many(rt, b"two modules to 1023 attributes", almost, 2)?;
    among_many(rt, b"two modules to 1024 attributes", full::full(almost), 2)
}

// "with the same bytes .. as adding them one by one"
pub fn beside_single_adds(rt: &impl Print) -> io::Result<()> {
    let mut one_by_one = context::kernel();
    let _ = ultra_building::add_module(&mut one_by_one, given::module());
    let _ = ultra_building::add_module(&mut one_by_one, lists::at_the_top());
    let after = try_on(
        rt,
        b"two unlike modules and one of type 0",
        context::kernel(),
        lists::unlike(),
        3,
    )?;
    let differ = print::differences(&one_by_one, &after);
    println!(rt; "  bytes that differ from those of two single adds: {differ}")
}
