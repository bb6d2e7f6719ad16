// Cases of numbers and of ranges.
use number::{LeadingRange, TrailingRange};
use std::io;

fn number_case(rt: &impl Print, s: &[u8]) -> io::Result<()> {
    match number::read_number(s) {
        Some(v) => replay::decimal(rt, v as usize),
        None => replay::words(rt, b"unread"),
    }
}

fn from_to(rt: &impl Print, start: u32, end: u32) -> io::Result<()> {
    replay::decimal(rt, start as usize)?;
    replay::words(rt, b" to ")?;
    replay::decimal(rt, end as usize)
}

fn before_case(rt: &impl Print, s: &[u8]) -> io::Result<()> {
    match number::leading_range(s) {
        Some(LeadingRange { start, end, rest }) => {
            from_to(rt, start, end)?;
            replay::words(rt, b", rest at ")?;
            replay::decimal(rt, rest)
        }
        None => replay::words(rt, b"none"),
    }
}

fn after_case(rt: &impl Print, s: &[u8]) -> io::Result<()> {
    match number::trailing_range(s) {
        Some(
            TrailingRange {
                start,
                end,
                second_unread,
            },
        ) => {
            from_to(rt, start, end)?;
            if second_unread {
                replay::words(rt, b", short")?;
            }
            Ok(())
        }
        None => replay::words(rt, b"none"),
    }
}

// Replays a line of a kind that stands here, and answers whether it is one.
pub fn replayed(rt: &impl Print, line: &[u8]) -> io::Result<bool> {
    let Some(space) = text_places::first_byte(line, b' ') else {
        return Ok(false);
    };
    let kind = &line[..space];
    let asked = &line[space + 1..];
    if text_places::same_bytes(kind, b"number") {
        number_case(rt, asked)?;
        return Ok(true);
    }
    if text_places::same_bytes(kind, b"before") {
        before_case(rt, asked)?;
        return Ok(true);
    }
    if text_places::same_bytes(kind, b"after") {
        after_case(rt, asked)?;
        return Ok(true);
    }
    Ok(false)
}
