// Beginning, in buffers of 165s.
use cases_shared::show;
use cases_text::print;
use refusals::Refusal;
use std::io;

fn begun(
    rt: &impl Print,
    label: &[u8],
    answer: Result<u32, Refusal>,
    bytes: &[u8],
) -> io::Result<()> {
    print::words(rt, label)?;
    show::answer(rt, answer)?;
    print::words(rt, b", bytes")?;
    print::numbers(rt, bytes)?;
    print::words(rt, b"\n")
}

fn on_0(rt: &impl Print) -> io::Result<()> {
    let mut space = [165u8; 0];
    show::call(rt, b"begin on 0 bytes", ultra_building::begin(&mut space))
}

fn on_7(rt: &impl Print) -> io::Result<()> {
    let mut space = [165u8; 7];
    let answer = ultra_building::begin(&mut space);
    begun(rt, b"begin on 7 bytes", answer, &space)
}

fn on_8(rt: &impl Print) -> io::Result<()> {
    let mut space = [165u8; 8];
    let answer = ultra_building::begin(&mut space);
    begun(rt, b"begin on 8 bytes", answer, &space)
}

fn on_24(rt: &impl Print) -> io::Result<()> {
    let mut space = [165u8; 24];
    let answer = ultra_building::begin(&mut space);
    begun(rt, b"begin on 24 bytes", answer, &space)?;
    show::reading(rt, b"begin on 24 bytes, read", ultra_reading::read(&space))
}

pub fn all(rt: &impl Print) -> io::Result<()> {
    on_0(rt)?;
    on_7(rt)?;
    on_8(rt)?;
    on_24(rt)
}
