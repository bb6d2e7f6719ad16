// The arrow of a class or member line, and class lines.
ghost use Rattle.std.specs.Prelude.{◌≡◌};
ghost use Rattle.line_parts.specs.Arrows.{arrow_of, class_sides};

use text_places::{Span, first_pair, shifted};
use text_white::trim_both;

// Both sides of an arrow, trimmed.
#[derive(Clone, Copy)]
pub struct Sides {
    pub left: Span,
    pub right: Span,
}

// The sides of the first arrow, if neither is empty.
pub fn split_arrow(s: &[u8]) -> Option<Sides>
    ensures { result ≡ arrow_of s.now }
{
    let arrow = first_pair(s, b'-', b'>')?;
    let left = trim_both(&s[..arrow]);
    if left.start == left.end {
        return None;
    }
    let after = arrow + 2;
    let right = trim_both(&s[after..]);
    if right.start == right.end {
        return None;
    }
    // made of its two numbers: a span that is copied into an answer right after it was made is waited for
    Some(Sides {
        left: Span {
            start: left.start,
            end: left.end,
        },
        right: shifted(after, right),
    })
}

// A class line, trimmed: its display name and its raw name.
pub fn class_sides(s: &[u8]) -> Option<Sides>
    ensures { result ≡ class_sides s.now }
{
    if s.len() == 0 {
        return None;
    }
    let last = s.len() - 1;
    if s[last] != b':' {
        return None;
    }
    split_arrow(&s[..last])
}
