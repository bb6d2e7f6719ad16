// What this program alone writes to standard output.
use std::io;

pub fn code_point(rt: &impl Print, code: u32) -> io::Result<()> {
    print!(rt; "{code:x}")
}

pub fn line_end(rt: &impl Print) -> io::Result<()> {
    replay::words(rt, b"\n")
}
