// Replays JSON texts as comments. In standard input a line `= NAME` opens a case; its document is what stands between that
// line and the next of its kind, or the end. One line is written for each:
//
//     NAME: unreadable
//     NAME: id text 1 a, signature missing      a string: the length of what it stands for, and that itself
//     NAME: id other, signature missing         a value that is no string
//
// After an id that is the one of a residual signature stands ` (residual)`.
#![tactic(auto)]

use std::io;
use std::io::Read;

mod answers;

// What is written behind a case's name.
fn replay_case(rt: &impl Print, document: &[u8]) -> io::Result<()> {
    answers::answer(rt, document)?;
    replay::words(rt, b"\n")
}

fn main(rt: HostRuntime) -> io::Result<()> {
    let mut input = Vec::new(rt.alloc());
    rt.stdin().take(65536).read_to_end(&mut input)?;
    replay::each_case(&rt, &input, |document| replay_case(&rt, document))
}
