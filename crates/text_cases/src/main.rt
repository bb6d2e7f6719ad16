// Replays published and marked cases. Each line of standard input is one, and one line is written for it:
//
//     41 C0 80         bytes, as text:                   broken at 1 length 1: 41 ?1 ?1
//     number +7        a number:                         7
//     before 1:3:void  the range before a method:        1 to 3, rest at 4
//     after :10:x      the range after a method's `)`:   10 to 10, short
//     # a comment, or nothing: written as it is
#![tactic(auto)]

use std::io;
use std::io::Read;
use text_places::NextLine;

mod ranges;
mod say;
mod sequences;

// What a line asks for, by its first word.
fn replay(rt: &impl Print, line: &[u8]) -> io::Result<()> {
    if line.len() == 0 {
        return say::line_end(rt);
    }
    if line[0] == b'#' {
        replay::words(rt, line)?;
        return say::line_end(rt);
    }
    if ranges::replayed(rt, line)? {
        return say::line_end(rt);
    }
    sequences::replay(rt, line)?;
    say::line_end(rt)
}

fn each_line(rt: &impl Print, s: &[u8]) -> io::Result<()> {
    let mut at = 0;
    while at < s.len() {
        let Some(
            NextLine {
                start: _,
                end,
                next,
            },
        ) = text_places::next_line(s, at)
        else {
            return Ok(());
        };
        replay(rt, &s[at..end])?;
        at = next;
    }
    Ok(())
}

fn main(rt: HostRuntime) -> io::Result<()> {
    let mut input = Vec::new(rt.alloc());
    rt.stdin().take(65536).read_to_end(&mut input)?;
    each_line(&rt, &input)
}
