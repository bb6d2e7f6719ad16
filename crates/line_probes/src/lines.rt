// What a line is, and the arguments of a method.
ghost use Rattle.std.specs.Prelude.{◌≡◌, ◌<◌, ◌^◌};
ghost use Rattle.text_places.specs.Places.{place_number};
ghost use Rattle.line.specs.Kinds.{line_of};
ghost use Rattle.line_parts.specs.Inner.NextArgument.{next_argument};
ghost use Rattle.line_probes.specs.LineAnswers.{seven_numbers, comment_line_numbers, class_numbers, field_numbers, line_kind_numbers, argument_numbers};

use crate::methods::method_numbers;
use line::Line;
use line_parts::NextArgument;
use text_places::Span;

// An answer of at most seven numbers.
fn seven(kind: u64, a: u64, b: u64, c: u64, d: u64, e: u64, f: u64) -> [u64; 20]
    ensures { result ≡ seven_numbers kind a b c d e f }
{
    [
        kind, a, b, c, d, e, f, 0, 0, 0, 0, 0, 0, 0, 0, 0, 0, 0, 0, 0,
    ]
}

// A comment, by the place of its `{`, counted from 1.
fn comment_numbers(brace: Option<usize>) -> [u64; 20]
    requires { place_number brace < 2 ^ 64 }
    ensures { result ≡ comment_line_numbers brace }
{
    match brace {
        Some(i) => seven(1, i as u64 + 1, 0, 0, 0, 0, 0),
        None => seven(1, 0, 0, 0, 0, 0, 0),
    }
}

fn class_numbers(display: Span, raw: Span) -> [u64; 20]
    ensures { result ≡ class_numbers display raw }
{
    seven(
        2,
        display.start as u64,
        display.end as u64,
        raw.start as u64,
        raw.end as u64,
        0,
        0,
    )
}

fn field_numbers(declared: Span, name: Span, raw: Span) -> [u64; 20]
    ensures { result ≡ field_numbers declared name raw }
{
    seven(
        3,
        declared.start as u64,
        declared.end as u64,
        name.start as u64,
        name.end as u64,
        raw.start as u64,
        raw.end as u64,
    )
}

#[unsafe(no_mangle)]
pub extern "C" fn clumarief_probe_line_parts(text: &[u8], answer: &mut [u64; 20])
    ensures { answer.new ≡ line_kind_numbers (line_of text.now) }
{
    match line::read_line(text) {
        Line::Blank => {
            *answer = seven(0, 0, 0, 0, 0, 0, 0);
        }
        Line::Comment(brace) => {
            *answer = comment_numbers(brace);
        }
        Line::Class { display, raw } => {
            *answer = class_numbers(display, raw);
        }
        Line::Field {
            declared,
            name,
            raw,
        } => {
            *answer = field_numbers(declared, name, raw);
        }
        Line::Method { method, raw } => {
            *answer = method_numbers(method, raw);
        }
        Line::Refused(refusal) => {
            *answer = seven(5, line::refusal_number(refusal) as u64, 0, 0, 0, 0, 0);
        }
    }
}

#[unsafe(no_mangle)]
pub extern "C" fn clumarief_probe_argument(text: &[u8], at: usize, answer: &mut [u64; 4])
    ensures { answer.new ≡ argument_numbers (next_argument text.now at) }
{
    match line_parts::next_argument(text, at) {
        Some(NextArgument { start, end, next }) => {
            *answer = [1, start as u64, end as u64, next as u64];
        }
        None => {
            *answer = [0, 0, 0, 0];
        }
    }
}
