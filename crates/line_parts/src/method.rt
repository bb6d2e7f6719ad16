// The left side of a method.
ghost use Rattle.std.specs.Prelude.{◌≡◌, ◌≤◌, length};
ghost use Rattle.text_places.specs.Spans.{largest};
ghost use Rattle.line_parts.specs.Signatures.{NameIn};
ghost use Rattle.line_parts.specs.Methods.{shift_name, shift_method, MethodIn, settled_of, method_from, method_of};
ghost use Rattle.line_parts.specs.Inner.Opening.{Opens};

use crate::signature::{Qualified, Signature, signature_in};
use number::{LeadingRange, TrailingRange, leading_range};
use text_places::{Span, shifted};
use text_white::{first_white, trim_both};

// A range of line numbers, if there is one.
#[derive(Clone, Copy)]
pub struct LineRange {
    pub start: u32,
    pub end: u32,
}

// A method's parts. `short` tells that its display range has a second part that does not read.
#[derive(Clone, Copy)]
pub struct Method {
    pub returned: Span,
    pub named: Qualified,
    pub arguments: Span,
    pub raw: Option<LineRange>,
    pub display: Option<LineRange>,
    pub short: bool,
}

// A name in what starts at the place `by`.
fn shifted_name(by: usize, named: Qualified) -> Qualified
    requires { NameIn (shift_name by named) largest }
    ensures { result ≡ shift_name by named }
{
    match named {
        Qualified::Owned { owner, name } => Qualified::Owned {
            owner: shifted(by, owner),
            name: shifted(by, name),
        },
        Qualified::Plain { name } => Qualified::Plain {
            name: shifted(by, name),
        },
    }
}

// A method in what starts at the place `by`.
pub fn shifted_method(by: usize, method: Method) -> Method
    requires { MethodIn (shift_method by method) largest }
    ensures { result ≡ shift_method by method }
{
    let named = method.named;
    let raw = method.raw;
    let display = method.display;
    Method {
        returned: shifted(by, method.returned),
        named: shifted_name(by, named),
        arguments: shifted(by, method.arguments),
        raw,
        display,
        short: method.short,
    }
}

// The parts, with the ranges decided: without a display range it is the raw range.
fn settled(
    returned: Span,
    named: Qualified,
    arguments: Span,
    raw: Option<LineRange>,
    lines: Option<TrailingRange>,
) -> Method
    ensures { result ≡ settled_of returned named arguments raw lines }
{
    match lines {
        Some(
            TrailingRange {
                start,
                end,
                second_unread,
            },
        ) => Method {
            returned,
            named,
            arguments,
            raw,
            display: Some(LineRange { start, end }),
            short: second_unread,
        },
        None => Method {
            returned,
            named,
            arguments,
            raw,
            display: raw,
            short: false,
        },
    }
}

// A method from its return type on, which starts at the place `rest`.
fn method_from(left: &[u8], open: usize, rest: usize, raw: Option<LineRange>) -> Option<Method>
    requires { (rest ≤ length left.now) × Opens left.now «open» }
    ensures { result ≡ method_from left.now rest raw }
{
    let white = first_white(&left[rest..])?;
    let base = rest + white;
    let part = trim_both(&left[base..]);
    let start = base + part.start;
    let end = base + part.end;
    let Signature {
        named,
        arguments,
        lines,
    } = signature_in(left, open, start, end)?;
    Some(settled(
        Span {
            start: rest,
            end: base,
        },
        shifted_name(start, named),
        shifted(start, arguments),
        raw,
        lines,
    ))
}

// `open` is the place of the first `(`: a caller has looked for it, to tell a method from a field.
pub fn method_parts(left: &[u8], open: usize) -> Option<Method>
    requires { Opens left.now «open» }
    ensures { result ≡ method_of left.now }
{
    let Some(LeadingRange { start, end, rest }) = leading_range(left) else {
        return method_from(left, open, 0, None);
    };
    method_from(left, open, rest, Some(LineRange { start, end }))
}
