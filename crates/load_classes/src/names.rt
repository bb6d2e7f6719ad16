// The names of a class line.
ghost use Rattle.std.specs.Prelude.{◌≡◌};
ghost use Rattle.load_classes.specs.Inner.Names.{opens_no_class, NamedBy};

use line::{Line, read_line};
use text_places::Span;
use text_white::white_at;

#[derive(Clone, Copy)]
pub struct ClassNames {
    pub display: Span,
    pub raw: Span,
}

// Whether a byte alone tells that a line which starts with it is no class line: a space, `#`, LF or CR. Most lines show it so.
pub fn opens_no_class(b: u8) -> bool
    ensures { result ≡ opens_no_class b }
{
    if b == b' ' {
        return true;
    }
    if b == b'#' {
        return true;
    }
    if b == b'\n' {
        return true;
    }
    b == b'\r'
}

// The names of a line, if it is a class line. A line that starts with white space is none.
pub fn class_line(line: &[u8]) -> Option<ClassNames>
    ensures { NamedBy result line.now }
{
    if white_at(line, 0) {
        return None;
    }
    match read_line(line) {
        Line::Blank => None,
        Line::Comment(_) => None,
        Line::Class { display, raw } => Some(ClassNames { display, raw }),
        Line::Field {
            declared: _,
            name: _,
            raw: _,
        } => None,
        Line::Method { method: _, raw: _ } => None,
        Line::Refused(_) => None,
    }
}
