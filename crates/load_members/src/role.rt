// What a line is to the rows.
ghost use Rattle.std.specs.Prelude.{◌≡◌};
ghost use Rattle.load_members.specs.Inner.Roles.{role_of};

use line::Line;
use line_parts::name_span;
use load_texts::{Body, MemberLine};
use text_places::Span;

#[derive(Clone, Copy)]
pub enum Role {
    // A class line, by its display name.
    Class(Span),
    Member(MemberLine),
    Neither,
}

pub fn role_of(kind: Line) -> Role
    ensures { result ≡ role_of kind }
{
    match kind {
        Line::Blank => Role::Neither,
        Line::Comment(_) => Role::Neither,
        Line::Class { display, raw: _ } => Role::Class(display),
        Line::Field {
            declared,
            name,
            raw,
        } => Role::Member(MemberLine {
            raw,
            name,
            body: Body::Field(declared),
        }),
        Line::Method { method, raw } => {
            let named = method.named;
            Role::Member(MemberLine {
                raw,
                name: name_span(named),
                body: Body::Method(method),
            })
        }
        Line::Refused(_) => Role::Neither,
    }
}
