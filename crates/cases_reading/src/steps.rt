// Steps from a cursor to the next.
use cases_contexts::build;
use cases_shared::show;
use cases_text::table;
use std::io;
use ultra_reading::Cursor;

// A context, and headers after it that no rule allows or that stand out of place.
fn space() -> [u8; 1024] {
    let mut buf = [0u8; 1024];
    build::head(&mut buf, 3);
    build::platform_and_kernel(&mut buf, 88);
    build::header(&mut buf, 432, 3, 32);
    build::header(&mut buf, 512, 7, 0);
    build::header(&mut buf, 520, 7, 4294967295);
    build::header(&mut buf, 528, 0, 8);
    build::header(&mut buf, 536, 7, 4294967288);
    build::header(&mut buf, 544, 2, 8);
    buf
}

// The cursor's index and offset.
fn step(rt: &impl Print, row: &[u8]) -> io::Result<()> {
    let [index, offset] = table::numbers::<2>(row);
    let cursor = Cursor {
        index: (index % 4294967296) as u32,
        offset: (offset % 4294967296) as u32,
    };
    show::step(rt, table::label(row), cursor.step(&space()))
}

pub fn all(rt: &impl Print) -> io::Result<()> {
    table::try_rows(
        b"\
        step 0 at 8: 0 8\n\
        step 1 at 96: 1 96\n\
        step 2 at 432: 2 432\n\
        step 3 at 464: 3 464\n\
        step 3 at 3: 3 3\n\
        step 0 at 0: 0 0\n\
        step 0 at 12: 0 12\n\
        step 0 at 1016: 0 1016\n\
        step 0 at 1024: 0 1024\n\
        step 0 at 4294967288: 0 4294967288\n\
        step 0 at 512, size 0: 0 512\n\
        step 0 at 520, size 4294967295: 0 520\n\
        step 0 at 528, type 0: 0 528\n\
        step 0 at 536, size 4294967288: 0 536\n\
        step 0 at 544, a kernel out of place: 0 544\n",
        |row| step(rt, row),
    )
}
