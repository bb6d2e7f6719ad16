// Replays applying. In standard input a line `= NAME` opens a case: after it stand a line with the class given, a line with the tree file
// in hexadecimal digits, and the mapping, up to the LF before the next line that opens a case, or before the end. For each case is written
// what `apply_to_smali` made of it:
//
//     NAME: refused 13                       the number that document 01 gives it
//     NAME: applied 46                       the output's length; a second line follows with so many of its bytes
//     0100000001000000010000000200..
#![tactic(auto)]

use std::io;
use std::io::Read;

mod answers;
mod hex;

fn main(rt: HostRuntime) -> io::Result<()> {
    let mut input = Vec::new(rt.alloc());
    rt.stdin().take(65536).read_to_end(&mut input)?;
    replay::each_case(&rt, &input, |asked| answers::answer(&rt, asked))
}
