// Replays mapping files. In standard input a line `= NAME` opens a case; its document is what stands between that line and the next of its
// kind, or the end. The LF before that is not the document's, so that a document can end in the middle of a line; one that ends with an LF,
// as document 01's example of five lines does, has one LF more in standard input. For each case is written what `parse` made of it:
//
//     NAME: refused 4 line 1                 the line that the loading program prints
//     NAME: loaded lines 5 blank 1 ..        where it is loaded, a second line follows with the used pool as it stands
//     Lx;La/Main;bInc(Lx;)VrunLa/Main;
#![tactic(auto)]

use std::io;
use std::io::Read;

mod answers;

fn main(rt: HostRuntime) -> io::Result<()> {
    let mut input = Vec::new(rt.alloc());
    rt.stdin().take(65536).read_to_end(&mut input)?;
    replay::each_case(&rt, &input, |document| answers::answer(&rt, document))
}
