// Bytes written in hexadecimal, two digits each.
use std::io;

// The digit of the last four bits of a value.
fn digit_of(value: u8) -> u8 {
    let v = value % 16;
    if v < 10 {
        return 48 + v;
    }
    55 + v
}

fn say_byte(rt: &impl Print, b: u8) -> io::Result<()> {
    let digits = [digit_of(b / 16), digit_of(b)];
    replay::words(rt, &digits)
}

// Writes bytes as a line.
pub fn say_bytes(rt: &impl Print, s: &[u8]) -> io::Result<()> {
    for b in s {
        say_byte(rt, *b)?;
    }
    replay::words(rt, b"\n")
}
