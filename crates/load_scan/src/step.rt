// One line of a text: what it is, what becomes of it, or its fault. Whoever goes over the lines goes by this.
ghost use Rattle.std.specs.Prelude.{◌≡◌, ◌≤◌, length};
ghost use Rattle.ground.specs.Put.{between};
ghost use Rattle.load_scan.specs.Inner.Steps.{is_entered, step_of, StepBy};

use crate::fates::{fate_of, fault, member_after};
use line::{Line, read_line};
use load_rule::Fate;
use text_places::{NextLine, next_line};

// Where a line stands and where the next one starts; what it is; what becomes of it; whether the current class has a last member after
// it. Steps are copied once a line: the small fields stand last, so that the large one is copied word by word.
#[derive(Clone, Copy)]
pub struct LineStep {
    pub start: usize,
    pub end: usize,
    pub next: usize,
    pub kind: Line,
    pub fate: Fate,
    pub has_member: bool,
}

#[derive(Clone, Copy)]
pub enum Step {
    End,
    Faulty(u32),
    // A blank line or a comment, of which nothing is entered: where the next line starts, and what becomes of it.
    Passed { next: usize, fate: Fate },
    Line(LineStep),
}

// Whether a line is a class line or a member line.
fn is_entered(kind: Line) -> bool
    ensures { result ≡ is_entered kind }
{
    match kind {
        Line::Blank => false,
        Line::Comment(_) => false,
        Line::Class { display: _, raw: _ } => true,
        Line::Field {
            declared: _,
            name: _,
            raw: _,
        } => true,
        Line::Method { method: _, raw: _ } => true,
        Line::Refused(_) => false,
    }
}

// The line from `start` to `end`; the next one starts at `next`. `classes` is how many class lines stand before it.
pub fn step_of(
    text: &[u8],
    start: usize,
    end: usize,
    next: usize,
    classes: u32,
    member: bool,
) -> Step
    requires { (start ≤ «end») × («end» ≤ length text.now) }
    ensures { result ≡ step_of (between text.now start «end») start «end» next classes member }
{
    let line = &text[start..end];
    let kind = read_line(line);
    let number = fault(classes, kind);
    if number != 0 {
        return Step::Faulty(number);
    }
    let fate = fate_of(line, kind, member);
    if !is_entered(kind) {
        return Step::Passed { next, fate };
    }
    Step::Line(LineStep {
        start,
        end,
        next,
        kind,
        fate,
        has_member: member_after(member, kind),
    })
}

// The line at the place `at`, where `classes` is how many class lines stand before it.
pub fn next_step(text: &[u8], at: usize, classes: u32, member: bool) -> Step
    ensures { StepBy result text.now at classes member }
{
    let Some(NextLine { start, end, next }) = next_line(text, at) else {
        return Step::End;
    };
    step_of(text, start, end, next, classes, member)
}
