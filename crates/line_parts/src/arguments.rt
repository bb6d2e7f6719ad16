// A method's arguments, one after another.
ghost use Rattle.std.specs.Prelude.{◌≡◌};
ghost use Rattle.text_places.specs.Spans.{is_empty};
ghost use Rattle.line_parts.specs.Inner.NextArgument.{next_argument};

use text_places::{Span, first_byte};
use text_white::trim_both;

// An argument, trimmed: where it starts, where it ends, and where the search for the following one starts.
#[derive(Clone, Copy)]
pub struct NextArgument {
    pub start: usize,
    pub end: usize,
    pub next: usize,
}

// Whether nothing is left of a part once it is trimmed.
fn is_blank(trimmed: Span) -> bool
    ensures { result ≡ is_empty trimmed }
{
    trimmed.start == trimmed.end
}

// The first argument from a place on that is not blank.
pub fn next_argument(s: &[u8], start: usize) -> Option<NextArgument>
    ensures { result ≡ next_argument s.now start }
{
    let mut at = start;
    while at < s.len() {
        let Some(comma) = first_byte(&s[at..], b',') else {
            let last = trim_both(&s[at..]);
            if is_blank(last) {
                return None;
            }
            return Some(NextArgument {
                start: at + last.start,
                end: at + last.end,
                next: s.len(),
            });
        };
        let end = at + comma;
        let part = trim_both(&s[at..end]);
        if is_blank(part) {
            at = end + 1;
            continue;
        }
        return Some(NextArgument {
            start: at + part.start,
            end: at + part.end,
            next: end + 1,
        });
    }
    None
}
