// The left side of a field.
ghost use Rattle.std.specs.Prelude.{◌≡◌};
ghost use Rattle.line_parts.specs.Fields.{field_of};

use text_places::{Span, shifted};
use text_white::{last_white, trim_both};

// Its type and its name.
#[derive(Clone, Copy)]
pub struct Field {
    pub declared: Span,
    pub name: Span,
}

pub fn field_parts(left: &[u8]) -> Option<Field>
    ensures { result ≡ field_of left.now }
{
    let white = last_white(left)?;
    let declared = trim_both(&left[..white]);
    let name = trim_both(&left[white..]);
    Some(Field {
        declared,
        name: shifted(white, name),
    })
}
