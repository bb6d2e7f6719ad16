// Names and lines of members.
ghost use Rattle.std.specs.Prelude.{◌≡◌};
ghost use Rattle.table_rows.specs.Tables.{tables};
ghost use Rattle.name_lines.specs.LineNames.{raw_line};
ghost use Rattle.name_rule.specs.MemberNames.{key};
ghost use Rattle.name_members.specs.MemberAnswers.{name_numbers, line_numbers, field_name_numbers, method_name_numbers, line_numbers_of};
ghost use Rattle.tables.specs.Check.{used_by};

use name_lines::RawLine;
use name_members::{MemberLine, MemberName, display_field_name, display_line, display_method_name};
use table_rows::{ClassRow, MemberRow};
use tables::{Malformed, used_of};

fn name_numbers(name: Result<Option<MemberName>, Malformed>) -> [u32; 5]
    ensures { result ≡ name_numbers name }
{
    match name {
        Ok(Some(MemberName { row, place, length })) => [0, 1, row, place, length],
        Ok(None) => [0, 0, 0, 0, 0],
        Err(Malformed) => [14, 0, 0, 0, 0],
    }
}

fn line_numbers(shown: Result<Option<MemberLine>, Malformed>) -> [u32; 4]
    ensures { result ≡ line_numbers shown }
{
    match shown {
        Ok(Some(MemberLine { row, line })) => [0, 1, row, line.0],
        Ok(None) => [0, 0, 0, 0],
        Err(Malformed) => [14, 0, 0, 0],
    }
}

// The display name of a field, by the raw descriptor of its class, its raw name and its raw descriptor.
#[unsafe(no_mangle)]
pub extern "C" fn clumarief_display_field_name(
    classes: &[ClassRow],
    members: &[MemberRow],
    pool: &[u8],
    used: &[u32; 3],
    owner: &[u8],
    name: &[u8],
    descriptor: &[u8],
    answer: &mut [u32; 5],
)
    ensures { let lent = tables classes.now members.now pool.now in
        let k = key owner.now name.now descriptor.now in
        answer.new ≡ field_name_numbers lent (used_by used.now) k }
{
    let shown = display_field_name(
        classes,
        members,
        pool,
        used_of(*used),
        owner,
        name,
        descriptor,
    );
    *answer = name_numbers(shown);
}

// The display name of a method.
#[unsafe(no_mangle)]
pub extern "C" fn clumarief_display_method_name(
    classes: &[ClassRow],
    members: &[MemberRow],
    pool: &[u8],
    used: &[u32; 3],
    owner: &[u8],
    name: &[u8],
    descriptor: &[u8],
    answer: &mut [u32; 5],
)
    ensures { let lent = tables classes.now members.now pool.now in
        let k = key owner.now name.now descriptor.now in
        answer.new ≡ method_name_numbers lent (used_by used.now) k }
{
    let called = display_method_name(
        classes,
        members,
        pool,
        used_of(*used),
        owner,
        name,
        descriptor,
    );
    *answer = name_numbers(called);
}

// The display line of a raw line of a method.
#[unsafe(no_mangle)]
pub extern "C" fn clumarief_display_line(
    classes: &[ClassRow],
    members: &[MemberRow],
    pool: &[u8],
    used: &[u32; 3],
    owner: &[u8],
    name: &[u8],
    descriptor: &[u8],
    line: u32,
    answer: &mut [u32; 4],
)
    ensures { let lent = tables classes.now members.now pool.now in
        let k = key owner.now name.now descriptor.now in
        answer.new ≡ line_numbers_of lent (used_by used.now) k (raw_line line) }
{
    let shown = display_line(
        classes,
        members,
        pool,
        used_of(*used),
        owner,
        name,
        descriptor,
        RawLine(line),
    );
    *answer = line_numbers(shown);
}
