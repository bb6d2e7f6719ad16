// What the mapping says of a member: the number of its row, its place and one more, or 0 where there is none.
ghost use Rattle.std.specs.Prelude.{◌≡◌, [], ◌≤◌, ◌<◌, length, get_or, Some};
ghost use Rattle.ground.specs.Look.{known};
ghost use Rattle.table_rows.specs.Rows.{unpack_class, unpack_member, most_members};
ghost use Rattle.tables.specs.Back.{text_in};
ghost use Rattle.tables.specs.Search.{last_raw};
ghost use Rattle.name_rule.specs.Mappings.{kind_back};
ghost use Rattle.name_rule.specs.MemberNames.{key, owned_by};
ghost use Rattle.name_index.specs.Inner.Chains.{Chained};
ghost use Rattle.apply_members.specs.Inner.Notes.{noted_row, is_home, is_row, found_note, row_note};

use name_index::chained_row;
use name_members::{Sought, display_of, is_sought};
use table_rows::{ClassRow, MemberRow, unpack_member};
use text_places::same_text;
use tree_signature::starts_as;

#[derive(Clone, Copy)]
pub struct MemberNote {
    // The row whose name is shown.
    pub named: u32,
    // Whether the line context of the node above holds.
    pub inherits: bool,
    // Else the last row of the method whose display owner is the class's display.
    pub lines: u32,
}

fn row_number(found: Option<usize>) -> u32
    requires { noted_row found ≤ most_members }
    ensures { result ≡ noted_row found }
{
    match found {
        Some(row) => row as u32 + 1,
        None => 0,
    }
}

// "A method whose owner is the class given".
pub fn is_home(class: &[u8], owner: &[u8], descriptor: &[u8]) -> bool
    ensures { result ≡ is_home class.now owner.now descriptor.now }
{
    if starts_as(descriptor, true) {
        return same_text(owner, class);
    }
    false
}

// Whether the display owner of a method's row is the display of a class row.
fn is_own(
    classes: &[ClassRow],
    members: &[MemberRow],
    pool: &[u8],
    class: usize,
    row: usize,
) -> bool
    requires { (class < length classes.now) × (row < length members.now) }
    ensures { let p = pool.now in
        let display = text_in p (unpack_class (get_or classes.now class [])).display in
        result ≡ owned_by (known display) (kind_back p (unpack_member (get_or members.now row []))) }
{
    let display = display_of(classes, pool, class);
    is_sought(Sought::Own, pool, unpack_member(members[row]), display)
}

// A method of the class of a class row, by the row that names it; `home` says whether that class is the class given.
fn method_note(
    classes: &[ClassRow],
    members: &[MemberRow],
    pool: &[u8],
    class: usize,
    found: Option<usize>,
    home: bool,
) -> MemberNote
    requires { (class < length classes.now) × (noted_row found ≤ length members.now) × (length members.now ≤ most_members) }
    ensures { result ≡ found_note classes.now members.now pool.now class found home }
{
    let named = row_number(found);
    let Some(row) = found else {
        return MemberNote {
            named,
            inherits: !home,
            lines: 0,
        };
    };
    if !home {
        return MemberNote {
            named,
            inherits: true,
            lines: 0,
        };
    }
    if is_own(classes, members, pool, class, row) {
        return MemberNote {
            named,
            inherits: false,
            lines: named,
        };
    }
    MemberNote {
        named,
        inherits: false,
        lines: 0,
    }
}

// Whether a class row is the one that is found.
fn is_row(found: Option<usize>, row: usize) -> bool
    ensures { result ≡ is_row found row }
{
    match found {
        Some(known) => known == row,
        None => false,
    }
}

// A member of the class of a class row, which is the last with its raw descriptor. `given` is the class row of the class given: where a row
// is found, the two classes are compared by their rows.
pub fn member_note(
    chains: &[u16],
    classes: &[ClassRow],
    members: &[MemberRow],
    pool: &[u8],
    given: Option<usize>,
    class: usize,
    name: &[u8],
    descriptor: &[u8],
) -> MemberNote
    requires { Chained classes.now pool.now members.now chains.now (length members.now)
        × (last_raw classes.now pool.now (text_in pool.now (unpack_class (get_or classes.now class [])).raw) ≡ Some class) }
    ensures { let p = pool.now in
        let k = key (text_in p (unpack_class (get_or classes.now class [])).raw) name.now descriptor.now in
        result ≡ row_note classes.now members.now p k (is_row given class) }
{
    let method = starts_as(descriptor, true);
    let found = chained_row(
        chains, classes, members, pool, class, name, descriptor, !method,
    );
    if method {
        let home = is_row(given, class);
        return method_note(classes, members, pool, class, found, home);
    }
    MemberNote {
        named: row_number(found),
        inherits: true,
        lines: 0,
    }
}
