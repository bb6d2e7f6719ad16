// Ranges of line numbers.
ghost use Rattle.std.specs.Prelude.{◌≡◌, ◌+◌, ◌<◌, length, take, drop};
ghost use Rattle.number.specs.Numbers.{number_of};
ghost use Rattle.number.specs.Ranges.{leading_range, trailing_range, to_colon, one_number, two_numbers};

use crate::read::read_number;
use text_places::first_byte;

// The range before a method. `rest` is the place after its second colon.
#[derive(Clone, Copy)]
pub struct LeadingRange {
    pub start: u32,
    pub end: u32,
    pub rest: usize,
}

// The range after a method's `)`. `second_unread` tells that a second part is there and does not read, so that `end` is `start`.
#[derive(Clone, Copy)]
pub struct TrailingRange {
    pub start: u32,
    pub end: u32,
    pub second_unread: bool,
}

// The range at the head of a member's left side.
pub fn leading_range(s: &[u8]) -> Option<LeadingRange>
    ensures { result ≡ leading_range s.now }
{
    let first = first_byte(s, b':')?;
    let after = first + 1;
    let width = first_byte(&s[after..], b':')?;
    let second = after + width;
    let start = read_number(&s[..first])?;
    let end = read_number(&s[after..second])?;
    Some(LeadingRange {
        start,
        end,
        rest: second + 1,
    })
}

// A text up to its first colon, or all of it.
fn to_colon(s: &[u8]) -> &[u8]
    ensures { result.now ≡ to_colon s.now }
{
    let Some(colon) = first_byte(s, b':') else {
        return s;
    };
    &s[..colon]
}

// A range of which one number is there.
fn one_number(s: &[u8]) -> Option<TrailingRange>
    ensures { result ≡ one_number (number_of s.now) }
{
    let start = read_number(s)?;
    Some(TrailingRange {
        start,
        end: start,
        second_unread: false,
    })
}

// A range of two parts, with a colon between.
fn two_numbers(s: &[u8], colon: usize) -> Option<TrailingRange>
    requires { colon < length s.now }
    ensures { result ≡ two_numbers (number_of (take colon s.now)) (number_of (to_colon (drop (colon + 1) s.now))) }
{
    let start = read_number(&s[..colon])?;
    let second = colon + 1;
    let Some(end) = read_number(to_colon(&s[second..])) else {
        return Some(TrailingRange {
            start,
            end: start,
            second_unread: true,
        });
    };
    Some(TrailingRange {
        start,
        end,
        second_unread: false,
    })
}

// The range that a trimmed text after `)` begins with.
pub fn trailing_range(s: &[u8]) -> Option<TrailingRange>
    ensures { result ≡ trailing_range s.now }
{
    if s.len() == 0 {
        return None;
    }
    if s[0] != b':' {
        return None;
    }
    let numbers = &s[1..];
    let Some(colon) = first_byte(numbers, b':') else {
        return one_number(numbers);
    };
    two_numbers(numbers, colon)
}
