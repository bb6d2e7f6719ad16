// Writing to standard output.
use std::io;

pub fn words(rt: &impl Print, s: &[u8]) -> io::Result<()> {
    rt.write_all(s)
}

pub fn decimal(rt: &impl Print, n: usize) -> io::Result<()> {
    rt.print(n)
}

// The name of a case, from the line that opens it.
pub fn case_name(rt: &impl Print, line: &[u8]) -> io::Result<()> {
    if 2 <= line.len() {
        words(rt, &line[2..])?;
    }
    Ok(())
}
