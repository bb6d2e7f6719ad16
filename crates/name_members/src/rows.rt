// Which member row answers. Rows are asked from the last one on.
ghost use Rattle.std.specs.Prelude.{◌≡◌, ◌<◌, [], length, get_or};
ghost use Rattle.table_rows.specs.Rows.{unpack_class};
ghost use Rattle.ground.specs.Look.{known};
ghost use Rattle.tables.specs.Back.{text_in, read_back};
ghost use Rattle.name_rule.specs.Mappings.{kind_back, member_back};
ghost use Rattle.name_rule.specs.MemberNames.{key, raw_of_row, is_text, matches};
ghost use Rattle.name_rule.specs.MemberRows.{last_member};
ghost use Rattle.name_members.specs.MemberAnswers.{row_asked};
ghost use Rattle.name_members.specs.Inner.Sought.{is_field_sought, sought_by, answers_by, first_sought, is_method_asked};

use name_lines::{RawLine, holds_line};
use table_rows::{ClassRow, Member, MemberRow, unpack_class, unpack_member};
use tables::{last_with_raw, text_in};
use text_places::same_text;

// What is asked: the name of a field or of a method, or the display line of a raw line of a method.
#[derive(Clone, Copy)]
pub enum Asked {
    Field,
    Method,
    Line(RawLine),
}

// What a member that matches has to be.
#[derive(Clone, Copy)]
pub enum Sought {
    Field,
    Method,
    // A method whose display owner is the class's display.
    Own,
    // Such a method, and its raw range holds the line.
    OwnLine(RawLine),
}

fn is_field_sought(sought: Sought) -> bool
    ensures { result ≡ is_field_sought sought }
{
    match sought {
        Sought::Field => true,
        Sought::Method => false,
        Sought::Own => false,
        Sought::OwnLine(_) => false,
    }
}

// Whether a member is what is sought, in a class with the display descriptor `display`.
pub fn is_sought(sought: Sought, pool: &[u8], member: Member, display: &[u8]) -> bool
    ensures { result ≡ sought_by sought (known display.now) (kind_back pool.now member) }
{
    if member.kind == 0 {
        return is_field_sought(sought);
    }
    let ranges = member.ranges;
    match sought {
        Sought::Field => false,
        Sought::Method => true,
        Sought::Own => same_text(display, text_in(pool, member.owner)),
        Sought::OwnLine(line) => {
            // numbers are compared before texts
            if !holds_line(ranges, line) {
                return false;
            }
            same_text(display, text_in(pool, member.owner))
        }
    }
}

// Whether a class row, by its number, has a raw descriptor.
fn class_is(classes: &[ClassRow], pool: &[u8], class: u32, raw: &[u8]) -> bool
    ensures { result ≡ is_text (raw_of_row (read_back classes.now pool.now) class) raw.now }
{
    let row = class as usize;
    if row < classes.len() {
        return same_text(text_in(pool, unpack_class(classes[row]).raw), raw);
    }
    false
}

// Whether a member matches by class, raw name and raw descriptor.
fn is_match(
    classes: &[ClassRow],
    pool: &[u8],
    member: Member,
    owner: &[u8],
    name: &[u8],
    descriptor: &[u8],
) -> bool
    ensures { let cs = read_back classes.now pool.now in
        let k = key owner.now name.now descriptor.now in
        result ≡ matches cs k (member_back pool.now member) }
{
    if !class_is(classes, pool, member.class, owner) {
        return false;
    }
    if !same_text(text_in(pool, member.raw_name), name) {
        return false;
    }
    same_text(text_in(pool, member.descriptor), descriptor)
}

// Whether a member is what is sought, and matches.
pub fn is_answer(
    classes: &[ClassRow],
    pool: &[u8],
    member: Member,
    display: &[u8],
    owner: &[u8],
    name: &[u8],
    descriptor: &[u8],
    sought: Sought,
) -> bool
    ensures { let cs = read_back classes.now pool.now in
        let k = key owner.now name.now descriptor.now in
        result ≡ answers_by sought (known display.now) cs k (member_back pool.now member) }
{
    if is_sought(sought, pool, member, display) {
        return is_match(classes, pool, member, owner, name, descriptor);
    }
    false
}

// The last member row that matches and is what is sought.
fn last_sought(
    members: &[MemberRow],
    classes: &[ClassRow],
    pool: &[u8],
    display: &[u8],
    owner: &[u8],
    name: &[u8],
    descriptor: &[u8],
    sought: Sought,
) -> Option<usize>
    ensures { let cs = read_back classes.now pool.now in
        let k = key owner.now name.now descriptor.now in
        result ≡ last_member (answers_by sought (known display.now) cs k) members.now pool.now }
{
    let mut end = members.len();
    while 0 < end {
        let at = end - 1;
        let member = unpack_member(members[at]);
        if is_answer(
            classes, pool, member, display, owner, name, descriptor, sought,
        ) {
            return Some(at);
        }
        end = at;
    }
    None
}

// The display descriptor of a class row.
pub fn display_of<'a>(classes: &[ClassRow], pool: &'a [u8], row: usize) -> &'a [u8]
    requires { row < length classes.now }
    ensures { result.now ≡ text_in pool.now (unpack_class (get_or classes.now row [])).display }
{
    text_in(pool, unpack_class(classes[row]).display)
}

// What answers first: of a method, one whose display owner is the class's display.
pub fn first_sought(asked: Asked) -> Sought
    ensures { result ≡ first_sought asked }
{
    match asked {
        Asked::Field => Sought::Field,
        Asked::Method => Sought::Own,
        Asked::Line(line) => Sought::OwnLine(line),
    }
}

pub fn is_method_asked(asked: Asked) -> bool
    ensures { result ≡ is_method_asked asked }
{
    match asked {
        Asked::Field => false,
        Asked::Method => true,
        Asked::Line(_) => false,
    }
}

// The member row that answers what is asked, if there is one: by the raw descriptor of its class, its raw name and its raw descriptor.
pub fn member_row(
    classes: &[ClassRow],
    members: &[MemberRow],
    pool: &[u8],
    owner: &[u8],
    name: &[u8],
    descriptor: &[u8],
    asked: Asked,
) -> Option<usize>
    ensures { let cs = read_back classes.now pool.now in
        let k = key owner.now name.now descriptor.now in
        result ≡ row_asked asked cs k members.now pool.now }
{
    let row = last_with_raw(classes, pool, owner)?;
    let display = display_of(classes, pool, row);
    let first = first_sought(asked);
    let Some(answer) = last_sought(
        members, classes, pool, display, owner, name, descriptor, first,
    ) else {
        // of a method, any other that matches
        if is_method_asked(asked) {
            return last_sought(
                members,
                classes,
                pool,
                display,
                owner,
                name,
                descriptor,
                Sought::Method,
            );
        }
        return None;
    };
    Some(answer)
}
