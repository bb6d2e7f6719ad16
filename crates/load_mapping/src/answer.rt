// The line for an input.
ghost use Rattle.std.specs.Prelude.{◌≤◌, length};
ghost use Rattle.table_pool.specs.Inner.Wrote.{Written};
ghost use Rattle.load_report.specs.Report.{report_of};
ghost use Rattle.load_mapping.specs.Program.{program_answer};

use load::parse;
use load_report::report_line;
use load_rule::LoadError;

// `parse`, with 1,024 class rows, 1,024 member rows and 65,536 pool bytes; an input over 65,536 bytes is refused.
pub fn line_for(input: &[u8], out: &mut [u8]) -> usize
    requires { 256 ≤ length out.old }
    ensures { Written result out.old 0 (report_of (program_answer input.now)) out.new × (result ≤ 256) }
{
    if 65536 < input.len() {
        return report_line(Err(LoadError::TooLong), out);
    }
    let mut classes = [[0u32; 4]; 1024];
    let mut members = [[0u32; 15]; 1024];
    let mut pool = [0u8; 65536];
    let load = parse(input, &mut classes, &mut members, &mut pool);
    report_line(load, out)
}
