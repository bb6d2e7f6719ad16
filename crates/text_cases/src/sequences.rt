// Cases of bytes in hexadecimal, read as UTF-8.
use crate::say;
use std::io;
use text_utf8::{Broken, Sequence};

fn verdict(rt: &impl Print, s: &[u8]) -> io::Result<()> {
    match text_utf8::check_text(s) {
        Ok(()) => replay::words(rt, b"valid:"),
        Err(Broken { at, length }) => {
            replay::words(rt, b"broken at ")?;
            replay::decimal(rt, at)?;
            replay::words(rt, b" length ")?;
            replay::decimal(rt, length)?;
            replay::words(rt, b":")
        }
    }
}

// Each sequence: its code point, or `?` and the length of its longest good start.
fn each_sequence(rt: &impl Print, s: &[u8]) -> io::Result<()> {
    let mut at = 0;
    while at < s.len() {
        match text_utf8::sequence_at(s, at) {
            Sequence::End => {
                return Ok(());
            }
            Sequence::Good { code, length } => {
                replay::words(rt, b" ")?;
                say::code_point(rt, code)?;
                at += length;
            }
            Sequence::Bad { length } => {
                replay::words(rt, b" ?")?;
                replay::decimal(rt, length)?;
                if length == 0 {
                    return Ok(());
                }
                at += length;
            }
        }
    }
    Ok(())
}

pub fn replay(rt: &impl Print, line: &[u8]) -> io::Result<()> {
    let mut bytes = [0u8; 4096];
    // two digits each, with a space between
    let n = replay::read_bytes(line, 1, &mut bytes);
    verdict(rt, &bytes[..n])?;
    each_sequence(rt, &bytes[..n])
}
