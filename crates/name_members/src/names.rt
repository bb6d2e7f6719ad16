// Names and lines of members out of tables that the caller lends.
ghost use Rattle.std.specs.Prelude.{◌≡◌, ◌<◌, length, get_or, []};
ghost use Rattle.table_rows.specs.Tables.{tables};
ghost use Rattle.name_rule.specs.MemberNames.{key};
ghost use Rattle.name_members.specs.MemberAnswers.{answering, name_of_row, line_of_row, field_answer, method_answer, line_answer};
ghost use Rattle.name_members.specs.MemberAnswers.{name_numbers, line_numbers, field_name_numbers, method_name_numbers, line_numbers_of};

use crate::rows::{Asked, member_row};
use name_lines::{DisplayLine, RawLine, translated};
use table_rows::{ClassRow, MemberRow, unpack_member};
use tables::{Malformed, Used, well_formed};

// The row that answers, and where its display name stands in the pool.
#[derive(Clone, Copy)]
pub struct MemberName {
    pub row: u32,
    pub place: u32,
    pub length: u32,
}

// The row that answers, and the display line.
#[derive(Clone, Copy)]
pub struct MemberLine {
    pub row: u32,
    pub line: DisplayLine,
}

// The row that answers.
fn answering_row(
    classes: &[ClassRow],
    members: &[MemberRow],
    pool: &[u8],
    used: Used,
    owner: &[u8],
    name: &[u8],
    descriptor: &[u8],
    asked: Asked,
) -> Result<Option<u32>, Malformed>
    ensures { let lent = tables classes.now members.now pool.now in
        let k = key owner.now name.now descriptor.now in
        result ≡ answering asked lent used k }
{
    if !well_formed(classes, members, pool, used) {
        return Err(Malformed);
    }
    let class_count = used.classes as usize;
    let member_count = used.members as usize;
    let class_rows = &classes[..class_count];
    let member_rows = &members[..member_count];
    let Some(row) = member_row(
        class_rows,
        member_rows,
        pool,
        owner,
        name,
        descriptor,
        asked,
    ) else {
        return Ok(None);
    };
    Ok(Some(row as u32))
}

fn name_of_row(members: &[MemberRow], row: u32) -> MemberName
    requires { row < length members.now }
    ensures { result ≡ name_of_row row (get_or members.now row []) }
{
    let at = row as usize;
    let name = unpack_member(members[at]).name;
    MemberName {
        row,
        place: name.place,
        length: name.length,
    }
}

fn line_of_row(members: &[MemberRow], row: u32, line: RawLine) -> Option<MemberLine>
    requires { row < length members.now }
    ensures { result ≡ line_of_row row (get_or members.now row []) line }
{
    let at = row as usize;
    let ranges = unpack_member(members[at]).ranges;
    let shown = translated(ranges, line)?;
    Some(MemberLine { row, line: shown })
}

// The display name of a field.
pub fn display_field_name(
    classes: &[ClassRow],
    members: &[MemberRow],
    pool: &[u8],
    used: Used,
    owner: &[u8],
    name: &[u8],
    descriptor: &[u8],
) -> Result<Option<MemberName>, Malformed>
    ensures { let lent = tables classes.now members.now pool.now in
        let k = key owner.now name.now descriptor.now in
        (result ≡ field_answer lent used k) × (name_numbers result ≡ field_name_numbers lent used k) }
{
    let answer = answering_row(
        classes,
        members,
        pool,
        used,
        owner,
        name,
        descriptor,
        Asked::Field,
    )?;
    let Some(row) = answer else {
        return Ok(None);
    };
    Ok(Some(name_of_row(members, row)))
}

// The display name of a method.
pub fn display_method_name(
    classes: &[ClassRow],
    members: &[MemberRow],
    pool: &[u8],
    used: Used,
    owner: &[u8],
    name: &[u8],
    descriptor: &[u8],
) -> Result<Option<MemberName>, Malformed>
    ensures { let lent = tables classes.now members.now pool.now in
        let k = key owner.now name.now descriptor.now in
        (result ≡ method_answer lent used k) × (name_numbers result ≡ method_name_numbers lent used k) }
{
    let answer = answering_row(
        classes,
        members,
        pool,
        used,
        owner,
        name,
        descriptor,
        Asked::Method,
    )?;
    let Some(row) = answer else {
        return Ok(None);
    };
    Ok(Some(name_of_row(members, row)))
}

// The display line of a raw line of a method.
pub fn display_line(
    classes: &[ClassRow],
    members: &[MemberRow],
    pool: &[u8],
    used: Used,
    owner: &[u8],
    name: &[u8],
    descriptor: &[u8],
    line: RawLine,
) -> Result<Option<MemberLine>, Malformed>
    ensures { let lent = tables classes.now members.now pool.now in
        let k = key owner.now name.now descriptor.now in
        (result ≡ line_answer lent used k line) × (line_numbers result ≡ line_numbers_of lent used k line) }
{
    let answer = answering_row(
        classes,
        members,
        pool,
        used,
        owner,
        name,
        descriptor,
        Asked::Line(line),
    )?;
    let Some(row) = answer else {
        return Ok(None);
    };
    Ok(line_of_row(members, row, line))
}
