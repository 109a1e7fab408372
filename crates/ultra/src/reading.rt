// Reading and stepping.
ghost use Rattle.std.specs.Prelude.{◌≡◌};
ghost use Rattle.ultra_reading.specs.Reading.{reading_of};
ghost use Rattle.ultra_stepping.specs.Stepping.{cursor_at, step_of};
ghost use Rattle.ultra_crossing.specs.Crossing.{reading_crossed, step_crossed};

use ultra_reading::Cursor;

// The used length.
#[unsafe(no_mangle)]
pub extern "C" fn ultra_read(buf: &[u8]) -> u64
    ensures { result ≡ reading_crossed (reading_of buf.now) }
{
    ultra_crossing::of_reading(ultra_reading::read(buf))
}

// The offset of the cursor after the attribute at `index` and `offset`, or 0 at the end.
#[unsafe(no_mangle)]
pub extern "C" fn ultra_step(buf: &[u8], index: u32, offset: u32) -> u64
    ensures { result ≡ step_crossed (step_of buf.now (cursor_at index offset)) }
{
    let cursor = Cursor { index, offset };
    ultra_crossing::of_step(cursor.step(buf))
}
