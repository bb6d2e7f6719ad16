// The parts of a method.
ghost use Rattle.std.specs.Prelude.{◌≡◌};
ghost use Rattle.line_probes.specs.LineAnswers.{owned, owner_span, lined, first_line, last_line, method_numbers};

use line_parts::{LineRange, Method, Qualified, name_span};
use text_places::{Span, bit_number};

// Whether a name has an owner.
fn has_owner(named: Qualified) -> u64
    ensures { result ≡ owned named }
{
    match named {
        Qualified::Owned { owner, name } => 1,
        Qualified::Plain { name } => 0,
    }
}

fn owner_of(named: Qualified) -> Span
    ensures { result ≡ owner_span named }
{
    match named {
        Qualified::Owned { owner, name } => owner,
        Qualified::Plain { name } => Span { start: 0, end: 0 },
    }
}

// Whether there is a range.
fn has_lines(lines: Option<LineRange>) -> u64
    ensures { result ≡ lined lines }
{
    match lines {
        Some(LineRange { start, end }) => 1,
        None => 0,
    }
}

fn first_line(lines: Option<LineRange>) -> u64
    ensures { result ≡ first_line lines }
{
    match lines {
        Some(LineRange { start, end }) => start as u64,
        None => 0,
    }
}

fn last_line(lines: Option<LineRange>) -> u64
    ensures { result ≡ last_line lines }
{
    match lines {
        Some(LineRange { start, end }) => end as u64,
        None => 0,
    }
}

pub fn method_numbers(method: Method, raw: Span) -> [u64; 20]
    ensures { result ≡ method_numbers method raw }
{
    let returned = method.returned;
    let named = method.named;
    let arguments = method.arguments;
    let lines = method.raw;
    let display = method.display;
    let owner = owner_of(named);
    let name = name_span(named);
    [
        4,
        returned.start as u64,
        returned.end as u64,
        has_owner(named),
        owner.start as u64,
        owner.end as u64,
        name.start as u64,
        name.end as u64,
        arguments.start as u64,
        arguments.end as u64,
        raw.start as u64,
        raw.end as u64,
        has_lines(lines),
        first_line(lines),
        last_line(lines),
        has_lines(display),
        first_line(display),
        last_line(display),
        bit_number(method.short) as u64,
        0,
    ]
}
