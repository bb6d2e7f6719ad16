// A method's name, its arguments, and what follows its `)`.
ghost use Rattle.std.specs.Prelude.{◌≡◌, ◌≤◌, length};
ghost use Rattle.ground.specs.Put.{between};
ghost use Rattle.text_places.specs.Places.{first_where, last_where, starts};
ghost use Rattle.line_parts.specs.Signatures.{name_span, qualified_of, lines_after, method_signature};
ghost use Rattle.line_parts.specs.Inner.Opening.{Opens};

use number::{TrailingRange, trailing_range};
use text_places::{Span, first_byte, last_byte, shifted};
use text_white::trim_both;

// A method's name, with its owner where it has one.
#[derive(Clone, Copy)]
pub enum Qualified {
    Owned { owner: Span, name: Span },
    Plain { name: Span },
}

// A method's name, without its owner.
pub fn name_span(named: Qualified) -> Span
    ensures { result ≡ name_span named }
{
    match named {
        Qualified::Owned { owner: _, name } => name,
        Qualified::Plain { name } => name,
    }
}

#[derive(Clone, Copy)]
pub struct Signature {
    pub named: Qualified,
    pub arguments: Span,
    pub lines: Option<TrailingRange>,
}

// The dot that splits owner and name: the last one.
fn last_dot(s: &[u8]) -> Option<usize>
    ensures { result ≡ last_where (starts 0x2E) s.now }
{
    last_byte(s, b'.')
}

// The `)` that ends the arguments: the last one.
fn last_close(s: &[u8]) -> Option<usize>
    ensures { result ≡ last_where (starts 0x29) s.now }
{
    last_byte(s, b')')
}

// Owner and name.
fn owner_and_name(s: &[u8]) -> Qualified
    ensures { result ≡ qualified_of s.now }
{
    let Some(dot) = last_dot(s) else {
        return Qualified::Plain {
            name: Span {
                start: 0,
                end: s.len(),
            },
        };
    };
    Qualified::Owned {
        owner: Span { start: 0, end: dot },
        name: Span {
            start: dot + 1,
            end: s.len(),
        },
    }
}

// The range in what follows the `)`, trimmed.
fn lines_after(s: &[u8]) -> Option<TrailingRange>
    ensures { result ≡ lines_after s.now }
{
    let part = trim_both(s);
    let start = part.start;
    let end = part.end;
    trailing_range(&s[start..end])
}

// What follows the return type, trimmed; `opened` is the place of its first `(`, if it has one.
fn signature_parts(s: &[u8], opened: Option<usize>) -> Option<Signature>
    requires { opened ≡ first_where (starts 0x28) s.now }
    ensures { result ≡ method_signature s.now }
{
    let open = opened?;
    let close = last_close(s)?;
    if close < open {
        return None;
    }
    let named = owner_and_name(&s[..open]);
    let after = close + 1;
    let lines = lines_after(&s[after..]);
    Some(Signature {
        named,
        arguments: Span {
            start: open + 1,
            end: close,
        },
        lines,
    })
}

// The first `(` of a part, by the first one of the whole, which stands at the place `open`.
fn open_in(left: &[u8], open: usize, start: usize, end: usize) -> Option<usize>
    requires { (start ≤ «end») × («end» ≤ length left.now) × Opens left.now «open» }
    ensures { result ≡ first_where (starts 0x28) (between left.now start «end») }
{
    if start <= open {
        if open < end {
            return Some(open - start);
        }
        return None;
    }
    first_byte(&left[start..end], b'(')
}

// The signature in a part of a left side whose first `(` stands at the place `open`.
pub fn signature_in(left: &[u8], open: usize, start: usize, end: usize) -> Option<Signature>
    requires { (start ≤ «end») × («end» ≤ length left.now) × Opens left.now «open» }
    ensures { result ≡ method_signature (between left.now start «end») }
{
    let opened = open_in(left, open, start, end);
    signature_parts(&left[start..end], opened)
}
