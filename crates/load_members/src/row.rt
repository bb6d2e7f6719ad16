// The row of a member, by the places of its texts.
ghost use Rattle.std.specs.Prelude.{◌≡◌};
ghost use Rattle.table_rows.specs.Rows.{pack_member, most_pool};
ghost use Rattle.load_rule.specs.Members.{ranges_of};
ghost use Rattle.load_texts.specs.Inner.Places.{Rising, member_placed};

use line_parts::LineRange;
use load_texts::{Body, Places};
use table_rows::{Member, MemberRow, Ranges, Text, pack_member, text_between};

// The ranges of a method.
fn ranges(raw: Option<LineRange>, display: Option<LineRange>) -> Ranges
    ensures { result ≡ ranges_of raw display }
{
    match raw {
        None => match display {
            None => Ranges::None,
            Some(LineRange { start, end }) => Ranges::Display { start, end },
        },
        Some(
            LineRange {
                start: raw_start,
                end: raw_end,
            },
        ) => match display {
            None => Ranges::Both {
                raw_start,
                raw_end,
                start: raw_start,
                end: raw_end,
            },
            Some(LineRange { start, end }) => Ranges::Both {
                raw_start,
                raw_end,
                start,
                end,
            },
        },
    }
}

// The row of a member of the class row `class`, whose texts start at the place `at`.
pub fn member_row(class: u32, at: usize, places: Places, body: Body) -> MemberRow
    requires { Rising at places most_pool }
    ensures { result ≡ pack_member (member_placed class at places body) }
{
    let raw_name = text_between(at, places.descriptor);
    let descriptor = text_between(places.descriptor, places.name);
    let name = text_between(places.name, places.owner);
    match body {
        Body::Field(_) => pack_member(Member {
            kind: 0,
            class,
            raw_name,
            descriptor,
            name,
            owner: Text {
                place: 0,
                length: 0,
            },
            ranges: Ranges::None,
        }),
        Body::Method(method) => {
            let raw = method.raw;
            let display = method.display;
            pack_member(Member {
                kind: 1,
                class,
                raw_name,
                descriptor,
                name,
                owner: text_between(places.owner, places.end),
                ranges: ranges(raw, display),
            })
        }
    }
}
