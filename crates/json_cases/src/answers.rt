// What is written for a case.
use json_comment::{Comment, Stands};
use json_decode::WriteError;
use std::io;

// A string: the length of what it stands for, and that itself.
fn text(rt: &impl Print, document: &[u8], start: usize) -> io::Result<()> {
    let mut room = [0u8; 4096];
    match json_decode::decode_at(&mut room, 0, document, start) {
        Ok(n) => {
            replay::words(rt, b"text ")?;
            replay::decimal(rt, n)?;
            replay::words(rt, b" ")?;
            replay::words(rt, &room[..n])
        }
        Err(WriteError::NoRoom) => replay::words(rt, b"text too long"),
        Err(WriteError::NoString) => replay::words(rt, b"text unread"),
    }
}

fn member(rt: &impl Print, document: &[u8], stands: Stands) -> io::Result<()> {
    match stands {
        Stands::Missing => replay::words(rt, b"missing"),
        Stands::Other => replay::words(rt, b"other"),
        Stands::Text(start) => text(rt, document, start),
    }
}

// Says so where the id is that of a residual signature.
fn residual(rt: &impl Print, document: &[u8], id: Stands) -> io::Result<()> {
    if let Stands::Text(start) = id {
        if json_comment::is_residual(document, start) {
            replay::words(rt, b" (residual)")?;
        }
    }
    Ok(())
}

pub fn answer(rt: &impl Print, document: &[u8]) -> io::Result<()> {
    match json_comment::read_comment(document) {
        None => replay::words(rt, b"unreadable"),
        Some(Comment { id, signature }) => {
            replay::words(rt, b"id ")?;
            member(rt, document, id)?;
            residual(rt, document, id)?;
            replay::words(rt, b", signature ")?;
            member(rt, document, signature)
        }
    }
}
