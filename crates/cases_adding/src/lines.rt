// The command line, added after a platform and a kernel.
use cases_adds::context;
use cases_text::table;
use std::io;

fn command_line(rt: &impl Print, row: &[u8]) -> io::Result<()> {
    cases_adds::add(rt, table::label(row), context::kernel(), |buf| {
        ultra_building::add_command_line(buf, table::given(row))
    })
}

pub fn all(rt: &impl Print) -> io::Result<()> {
    table::try_rows(
        b"\
        line of 0 bytes: \n\
        line of 7 bytes: 1234567\n\
        line of 8 bytes: 12345678\n\
        line of 15 bytes: 123456789012345\n\
        line of 16 bytes: 1234567890123456\n\
        line with a zero inside: qui\0et\n\
        line with its closing zero: quiet\0\n\
        line of a zero: \0\n\
        line of bytes 1 and 127: \x01\x7f\n\
        line with byte 128: quiet\x80\n\
        line with byte 255: \xffquiet\n",
        |row| command_line(rt, row),
    )
}
