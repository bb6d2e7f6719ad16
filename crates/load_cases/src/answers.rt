// What is written for a case.
use load::parse;
use load_report::report_line;
use std::io;

// `parse`, with 16 class rows, 16 member rows and 512 pool bytes, so that a short text can need more.
pub fn answer(rt: &impl Print, document: &[u8]) -> io::Result<()> {
    let mut classes = [[0u32; 4]; 16];
    let mut members = [[0u32; 15]; 16];
    let mut pool = [0u8; 512];
    let load = parse(document, &mut classes, &mut members, &mut pool);
    let mut line = [0u8; 256];
    let size = report_line(load, &mut line);
    replay::words(rt, &line[..size])?;
    if let Ok(loaded) = load {
        let used = loaded.names as usize;
        replay::words(rt, &pool[..used])?;
        replay::words(rt, b"\n")?;
    }
    Ok(())
}
