// Which member row answers, by the index: only rows with the mark of what is looked for are asked, from the last one backwards.
ghost use Rattle.std.specs.Prelude.{◌≡◌, not, [], ◌<◌, eqb, length, get_or, Some};
ghost use Rattle.ground.specs.Choice.{pick};
ghost use Rattle.ground.specs.Look.{known};
ghost use Rattle.table_rows.specs.Rows.{unpack_class};
ghost use Rattle.tables.specs.Back.{text_in, read_back};
ghost use Rattle.tables.specs.Search.{last_raw};
ghost use Rattle.name_rule.specs.Mappings.{member_back};
ghost use Rattle.name_rule.specs.MemberNames.{key, raw_of_row, is_text};
ghost use Rattle.name_rule.specs.MemberRows.{last_member, field_row, method_row};
ghost use Rattle.name_members.specs.Inner.Sought.{answers_by};
ghost use Rattle.name_index.specs.Inner.Chains.{wanted_by, wanted_row, Chained, Behind, Walked};

use crate::chains::{MARKS, member_mark, raw_of};
use name_members::{Sought, display_of, is_answer};
use table_rows::{ClassRow, Member, MemberRow, unpack_member};
use tables::text_in;
use text_places::same_text;

pub fn wide_number(x: u16) -> usize
    ensures { result ≡ x }
{
    x as usize
}

// The last member row that matches and is what is sought, from the chain's row with the number `from` on.
fn walk_links(
    index: &[u16],
    classes: &[ClassRow],
    members: &[MemberRow],
    pool: &[u8],
    display: &[u8],
    owner: &[u8],
    name: &[u8],
    descriptor: &[u8],
    sought: Sought,
    from: usize,
) -> Option<usize>
    requires { Chained classes.now pool.now members.now index.now (length members.now)
        × Behind classes.now pool.now members.now sought (known display.now) owner.now name.now descriptor.now «from» }
    ensures { let cs = read_back classes.now pool.now in
        let k = key owner.now name.now descriptor.now in
        result ≡ last_member (answers_by sought (known display.now) cs k) members.now pool.now }
{
    let mut count = from;
    while 0 < count {
        let row = count - 1;
        let member = unpack_member(members[row]);
        if is_answer(
            classes, pool, member, display, owner, name, descriptor, sought,
        ) {
            return Some(row);
        }
        count = wide_number(index[MARKS + row]);
    }
    None
}

// The same. Texts are made anew of their numbers: slices that were just made are waited for where they are handed on whole.
pub fn last_linked(
    index: &[u16],
    classes: &[ClassRow],
    members: &[MemberRow],
    pool: &[u8],
    display: &[u8],
    owner: &[u8],
    name: &[u8],
    descriptor: &[u8],
    sought: Sought,
    from: usize,
) -> Option<usize>
    requires { Chained classes.now pool.now members.now index.now (length members.now)
        × Behind classes.now pool.now members.now sought (known display.now) owner.now name.now descriptor.now «from» }
    ensures { let cs = read_back classes.now pool.now in
        let k = key owner.now name.now descriptor.now in
        result ≡ last_member (answers_by sought (known display.now) cs k) members.now pool.now }
{
    let shown = &display[..];
    let owned = &owner[..];
    let named = &name[..];
    let typed = &descriptor[..];
    walk_links(
        index, classes, members, pool, shown, owned, named, typed, sought, from,
    )
}

// Whether a class row has the raw descriptor of another one, which is there. The same row has it: no text is read then.
fn is_same_class(classes: &[ClassRow], pool: &[u8], given: u32, class: usize) -> bool
    requires { class < length classes.now }
    ensures { let raw = text_in pool.now (unpack_class (get_or classes.now class [])).raw in
        result ≡ is_text (raw_of_row (read_back classes.now pool.now) given) raw }
{
    let row = given as usize;
    if row == class {
        return true;
    }
    if row < classes.len() {
        return same_text(raw_of(classes, pool, row), raw_of(classes, pool, class));
    }
    false
}

// Whether a kind is that of a field, or else of a method.
fn is_kind(kind: u32, field: bool) -> bool
    ensures { result ≡ pick (eqb kind 0) field (not field) }
{
    if kind == 0 {
        return field;
    }
    !field
}

// Whether a member is a field, or else a method, and matches by the class of a class row, its raw name and its raw descriptor.
fn is_wanted(
    classes: &[ClassRow],
    pool: &[u8],
    member: Member,
    class: usize,
    name: &[u8],
    descriptor: &[u8],
    field: bool,
) -> bool
    requires { class < length classes.now }
    ensures { let p = pool.now in
        let c = unpack_class (get_or classes.now class []) in
        let k = key (text_in p c.raw) name.now descriptor.now in
        result ≡ wanted_by field (read_back classes.now p) k (member_back p member) }
{
    if !is_kind(member.kind, field) {
        return false;
    }
    if !same_text(text_in(pool, member.raw_name), name) {
        return false;
    }
    if !same_text(text_in(pool, member.descriptor), descriptor) {
        return false;
    }
    is_same_class(classes, pool, member.class, class)
}

// The last field that is wanted, or else the last method that is wanted and whose display owner is the class's display, else the last one
// wanted, from the chain's row with the number `from` on. One walk finds both methods: it keeps the number of the last one wanted.
fn walk_wanted(
    index: &[u16],
    classes: &[ClassRow],
    members: &[MemberRow],
    pool: &[u8],
    class: usize,
    display: &[u8],
    name: &[u8],
    descriptor: &[u8],
    field: bool,
    from: usize,
) -> Option<usize>
    requires { let raw = text_in pool.now (unpack_class (get_or classes.now class [])).raw in
        Chained classes.now pool.now members.now index.now (length members.now)
        × (class < length classes.now)
        × Walked classes.now pool.now members.now field (known display.now) raw name.now descriptor.now 0 «from» }
    ensures { let p = pool.now in
        let c = unpack_class (get_or classes.now class []) in
        let k = key (text_in p c.raw) name.now descriptor.now in
        result ≡ wanted_row field (known display.now) (read_back classes.now p) k members.now p }
{
    let mut any = 0;
    let mut count = from;
    while 0 < count {
        let number = count;
        let row = number - 1;
        let member = unpack_member(members[row]);
        count = wide_number(index[MARKS + row]);
        if !is_wanted(classes, pool, member, class, name, descriptor, field) {
            continue;
        }
        if field {
            return Some(row);
        }
        if same_text(display, text_in(pool, member.owner)) {
            return Some(row);
        }
        if 0 < any {
            continue;
        }
        any = number;
    }
    if 0 < any {
        return Some(any - 1);
    }
    None
}

// The member row that answers for a field, or else for a method: by the row of its class, which is the last with that raw descriptor, its
// raw name and its raw descriptor.
pub fn chained_row(
    index: &[u16],
    classes: &[ClassRow],
    members: &[MemberRow],
    pool: &[u8],
    class: usize,
    name: &[u8],
    descriptor: &[u8],
    field: bool,
) -> Option<usize>
    requires { Chained classes.now pool.now members.now index.now (length members.now)
        × (last_raw classes.now pool.now (text_in pool.now (unpack_class (get_or classes.now class [])).raw) ≡ Some class) }
    ensures { let p = pool.now in
        let cs = read_back classes.now p in
        let rows = members.now in
        let k = key (text_in p (unpack_class (get_or classes.now class [])).raw) name.now descriptor.now in
        result ≡ pick field (field_row cs k rows p) (method_row cs k rows p) }
{
    let mark = member_mark(raw_of(classes, pool, class), name, descriptor);
    let from = wide_number(index[mark]);
    let display = display_of(classes, pool, class);
    walk_wanted(
        index, classes, members, pool, class, display, name, descriptor, field, from,
    )
}
