// What a line is, with the places of its parts in it.
ghost use Rattle.std.specs.Prelude.{◌≡◌, ◌+◌, ◌≤◌, length};
ghost use Rattle.text_places.specs.Spans.{largest};
ghost use Rattle.line_parts.specs.Inner.Opening.{Opens};
ghost use Rattle.line.specs.Kinds.{refusal_number, line_of, comment_at, class_at, member_at, method_at, field_at};

use line_parts::{
    Field, Method, Sides, class_sides, field_parts, method_parts, shifted_method, split_arrow,
};
use text_places::{Span, first_byte, shifted};
use text_white::trim_ends;

#[derive(Clone, Copy)]
pub enum Line {
    Blank,
    // The place of its `{`.
    Comment(Option<usize>),
    Class {
        display: Span,
        raw: Span,
    },
    Field {
        declared: Span,
        name: Span,
        raw: Span,
    },
    Method {
        method: Method,
        raw: Span,
    },
    Refused(Refusal),
}

// Why a line is refused: it is no class line, no member line, no method or no field.
#[derive(Clone, Copy)]
pub enum Refusal {
    Class,
    Member,
    Method,
    Field,
}

// The number of a refusal.
pub fn refusal_number(refusal: Refusal) -> u32
    ensures { result ≡ refusal_number refusal }
{
    match refusal {
        Refusal::Class => 3,
        Refusal::Member => 5,
        Refusal::Method => 6,
        Refusal::Field => 7,
    }
}

fn comment_line(s: &[u8], by: usize) -> Line
    requires { by + length s.now ≤ largest }
    ensures { result ≡ comment_at by s.now }
{
    let Some(brace) = first_byte(s, b'{') else {
        return Line::Comment(None);
    };
    Line::Comment(Some(by + brace))
}

fn class_line(s: &[u8], by: usize) -> Line
    requires { by + length s.now ≤ largest }
    ensures { result ≡ class_at by s.now }
{
    let Some(Sides { left, right }) = class_sides(s) else {
        return Line::Refused(Refusal::Class);
    };
    Line::Class {
        display: shifted(by, left),
        raw: shifted(by, right),
    }
}

fn method_line(left: &[u8], open: usize, by: usize, raw: Span) -> Line
    requires { (by + length left.now ≤ largest) × Opens left.now «open» }
    ensures { result ≡ method_at by raw left.now }
{
    let Some(method) = method_parts(left, open) else {
        return Line::Refused(Refusal::Method);
    };
    Line::Method {
        method: shifted_method(by, method),
        raw,
    }
}

fn field_line(left: &[u8], by: usize, raw: Span) -> Line
    requires { by + length left.now ≤ largest }
    ensures { result ≡ field_at by raw left.now }
{
    let Some(Field { declared, name }) = field_parts(left) else {
        return Line::Refused(Refusal::Field);
    };
    Line::Field {
        declared: shifted(by, declared),
        name: shifted(by, name),
        raw,
    }
}

fn member_line(s: &[u8], by: usize) -> Line
    requires { by + length s.now ≤ largest }
    ensures { result ≡ member_at by s.now }
{
    let Some(Sides { left, right }) = split_arrow(s) else {
        return Line::Refused(Refusal::Member);
    };
    let start = left.start;
    let end = left.end;
    let side = &s[start..end];
    let raw = shifted(by, right);
    let Some(open) = first_byte(side, b'(') else {
        return field_line(side, by + start, raw);
    };
    method_line(side, open, by + start, raw)
}

pub fn read_line(s: &[u8]) -> Line
    ensures { result ≡ line_of s.now }
{
    let part = trim_ends(s);
    let start = part.start;
    let end = part.end;
    if start == end {
        return Line::Blank;
    }
    let trimmed = &s[start..end];
    if s[start] == b'#' {
        return comment_line(trimmed, start);
    }
    // white space was trimmed from its start
    if 0 < start {
        return member_line(trimmed, start);
    }
    class_line(trimmed, start)
}
