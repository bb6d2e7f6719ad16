// The loading program: reads a mapping file from standard input, and writes one line that says what became of it.
#![tactic(auto)]

use std::io;
use std::io::Read;

mod answer;

fn main(rt: HostRuntime) -> io::Result<()> {
    // One byte more than an input may have, so that a longer one shows.
    let mut input = Vec::new(rt.alloc());
    rt.stdin().take(65537).read_to_end(&mut input)?;
    let mut out = [0u8; 256];
    let size = answer::line_for(&input, &mut out);
    rt.write_all(&out[..size])
}
