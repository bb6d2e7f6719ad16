// All lines from a place on.
ghost use Rattle.std.specs.Prelude.{◌≡◌, ◌≤◌, length, drop, Ok};
ghost use Rattle.ground.specs.Put.{between};
ghost use Rattle.text_places.specs.Lines.{lines};
ghost use Rattle.load_rule.specs.Loading.{most_text};
ghost use Rattle.load_scan.specs.Inner.Bounds.{Within};
ghost use Rattle.load_scan.specs.Inner.Steps.{scan_on};
ghost use Rattle.load_scan.specs.Inner.Turns.{Countable, with_line, scan_so_far, so_far};

use crate::fates::counted;
use crate::step::{Step, step_of};
use load_rule::{Fates, Fault};
use text_lines::{line, lines_of, moved};
use text_places::NextLine;

// What became of the lines so far and whether the current class has a last member, or the first faulty line.
#[derive(Clone, Copy)]
struct SoFar {
    fates: Fates,
    has_member: bool,
}

// No line is scanned yet.
fn begun(fates: Fates, has_member: bool) -> Result<SoFar, Fault>
    ensures { result ≡ Ok (so_far fates has_member) }
{
    Ok(SoFar { fates, has_member })
}

// The line from `start` to `end` after those so far; the next one starts at `next`.
fn scan_line(
    text: &[u8],
    start: usize,
    end: usize,
    next: usize,
    so_far: Result<SoFar, Fault>,
) -> Result<SoFar, Fault>
    requires { (start ≤ «end») × («end» ≤ length text.now) × Countable so_far }
    ensures { result ≡ with_line so_far (between text.now start «end») }
{
    let Ok(before) = so_far else {
        return so_far;
    };
    let fates = before.fates;
    match step_of(text, start, end, next, fates.class, before.has_member) {
        // No line has this step.
        Step::End => so_far,
        Step::Faulty(number) => Err(Fault {
            number,
            line: fates.lines + 1,
        }),
        Step::Passed { next: _, fate } => Ok(SoFar {
            fates: counted(fates, fate),
            has_member: before.has_member,
        }),
        Step::Line(line) => {
            let fate = line.fate;
            Ok(SoFar {
                fates: counted(fates, fate),
                has_member: line.has_member,
            })
        }
    }
}

// No line is left.
fn ended(so_far: Result<SoFar, Fault>) -> Result<Fates, Fault>
    ensures { result ≡ scan_so_far so_far }
{
    let whole = so_far?;
    Ok(whole.fates)
}

// The lines from the place `from` on, where `before` is what became of those before it.
pub fn scan_from(text: &[u8], from: usize, before: Fates, has_member: bool) -> Result<Fates, Fault>
    requires { (length text.now ≤ most_text) × («from» ≤ length text.now) × Within before «from» }
    ensures { result ≡ scan_on before has_member (lines (drop «from» text.now)) }
{
    let mut reader = moved(lines_of(text), from);
    let mut so_far = begun(before, has_member);
    while let Some(NextLine { start, end, next }) = line(reader) {
        so_far = scan_line(text, start, end, next, so_far);
        reader = moved(reader, next);
    }
    ended(so_far)
}
