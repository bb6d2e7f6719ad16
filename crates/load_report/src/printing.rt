// The line that the loading program prints.
ghost use Rattle.std.specs.Prelude.{◌++◌, ◌≤◌, length, Ok, Err};
ghost use Rattle.table_pool.specs.Inner.Wrote.{Written, WroteBy};
ghost use Rattle.load_report.specs.Digits.{decimal};
ghost use Rattle.load_report.specs.Report.{refused_line, line_items, row_items, report_of};
ghost use Rattle.load_report.specs.Inner.Adding.{Adds};
ghost use Rattle.load_rule.specs.declared.LoadError.TheVariants.{NotUtf8};
ghost use Rattle.load_rule.specs.Fates.{loaded_with};

use crate::decimal::put_decimal;
use load_rule::{Fates, Fault, LoadError, Loaded};
use table_pool::{NoRoom, put_text};

// A text behind what was written before.
fn add_text(out: &mut [u8], before: Result<usize, NoRoom>, text: &[u8]) -> Result<usize, NoRoom>
    ensures { Adds before result out.old text.now out.new }
{
    let at = before?;
    put_text(out, at, text)
}

// A number behind what was written before.
fn add_decimal(out: &mut [u8], before: Result<usize, NoRoom>, n: u32) -> Result<usize, NoRoom>
    ensures { Adds before result out.old (decimal n) out.new }
{
    let at = before?;
    put_decimal(out, at, n)
}

// A label and its number.
fn add_item(
    out: &mut [u8],
    before: Result<usize, NoRoom>,
    label: &[u8],
    n: u32,
) -> Result<usize, NoRoom>
    ensures { Adds before result out.old (label.now ++ decimal n) out.new }
{
    let labelled = add_text(out, before, label);
    add_decimal(out, labelled, n)
}

fn put_refused(out: &mut [u8], number: u32, line: u32) -> Result<usize, NoRoom>
    ensures { WroteBy result out.old 0 (refused_line number line) out.new }
{
    let refused = add_item(out, Ok(0), b"refused ", number);
    let lined = add_item(out, refused, b" line ", line);
    add_text(out, lined, b"\n")
}

fn put_broken(out: &mut [u8], valid: u32, length: u32) -> Result<usize, NoRoom>
    ensures { WroteBy result out.old 0 (report_of (Err (NotUtf8 valid length))) out.new }
{
    let refused = add_item(out, Ok(0), b"refused ", 2);
    let placed = add_item(out, refused, b" at ", valid);
    let measured = add_item(out, placed, b" length ", length);
    add_text(out, measured, b"\n")
}

// All lines, and those that give no row.
fn add_lines(out: &mut [u8], before: Result<usize, NoRoom>, fates: Fates) -> Result<usize, NoRoom>
    ensures { Adds before result out.old (line_items fates) out.new }
{
    let lines = add_item(out, before, b"loaded lines ", fates.lines);
    let blank = add_item(out, lines, b" blank ", fates.blank);
    let applied = add_item(out, blank, b" applied ", fates.applied);
    add_item(out, applied, b" idle ", fates.idle)
}

// Those that give one.
fn add_rows(out: &mut [u8], before: Result<usize, NoRoom>, fates: Fates) -> Result<usize, NoRoom>
    ensures { Adds before result out.old (row_items fates) out.new }
{
    let class = add_item(out, before, b" class ", fates.class);
    let field = add_item(out, class, b" field ", fates.field);
    let method = add_item(out, field, b" method ", fates.method);
    add_item(out, method, b" short ", fates.short)
}

fn put_loaded(out: &mut [u8], fates: Fates, names: u32) -> Result<usize, NoRoom>
    ensures { WroteBy result out.old 0 (report_of (Ok (loaded_with fates names))) out.new }
{
    let lines = add_lines(out, Ok(0), fates);
    let rows = add_rows(out, lines, fates);
    let named = add_item(out, rows, b" names ", names);
    add_text(out, named, b"\n")
}

fn put_report(out: &mut [u8], load: Result<Loaded, LoadError>) -> Result<usize, NoRoom>
    ensures { WroteBy result out.old 0 (report_of load) out.new }
{
    match load {
        Ok(Loaded { fates, names }) => put_loaded(out, fates, names),
        Err(LoadError::TooLong) => put_refused(out, 1, 0),
        Err(LoadError::NotUtf8 { valid, length }) => put_broken(out, valid, length),
        Err(LoadError::Faulty(Fault { number, line })) => put_refused(out, number, line),
        Err(LoadError::NoClasses) => put_refused(out, 8, 0),
        Err(LoadError::FewClassRows) => put_refused(out, 9, 0),
        Err(LoadError::FewMemberRows) => put_refused(out, 10, 0),
        Err(LoadError::ShortPool) => put_refused(out, 11, 0),
    }
}

// The line for an answer, with its LF, at the start of `out`: the answer is how many bytes it has. The other bytes of `out` stay as they
// are.
pub fn report_line(load: Result<Loaded, LoadError>, out: &mut [u8]) -> usize
    requires { 256 ≤ length out.old }
    ensures { Written result out.old 0 (report_of load) out.new × (result ≤ 256) }
{
    match put_report(out, load) {
        Ok(end) => end,
        Err(NoRoom) => 0,
    }
}
