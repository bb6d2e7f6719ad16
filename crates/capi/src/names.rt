// Class names.
ghost use Rattle.std.specs.Prelude.{◌≡◌};
ghost use Rattle.table_rows.specs.Tables.{tables};
ghost use Rattle.name_classes.specs.ClassNames.{display_of_class, class_name_numbers, display_numbers, raw_numbers};
ghost use Rattle.tables.specs.Check.{used_by};
ghost use Rattle.capi.specs.Answers.{mapped_numbers};

use name_classes::{display_class_name, raw_class_name};
use table_rows::{ClassRow, MemberRow, Text};
use tables::{Malformed, used_of};

fn class_numbers(name: Result<Option<Text>, Malformed>) -> [u32; 4]
    ensures { result ≡ class_name_numbers name }
{
    match name {
        Ok(Some(Text { place, length })) => [0, 1, place, length],
        Ok(None) => [0, 0, 0, 0],
        Err(Malformed) => [14, 0, 0, 0],
    }
}

fn mapped_numbers(name: Result<Option<Text>, Malformed>) -> [u32; 3]
    ensures { result ≡ mapped_numbers name }
{
    match name {
        Ok(Some(Text { place, length })) => [1, place, length],
        Ok(None) => [0, 0, 0],
        Err(Malformed) => [0, 0, 0],
    }
}

// The display descriptor of a class, by its raw one.
#[unsafe(no_mangle)]
pub extern "C" fn clumarief_display_class_name(
    classes: &[ClassRow],
    members: &[MemberRow],
    pool: &[u8],
    used: &[u32; 3],
    raw: &[u8],
    answer: &mut [u32; 4],
)
    ensures { let lent = tables classes.now members.now pool.now in
        answer.new ≡ display_numbers lent (used_by used.now) raw.now }
{
    let name = display_class_name(classes, members, pool, used_of(*used), raw);
    *answer = class_numbers(name);
}

// The raw descriptor of a class, by its display one.
#[unsafe(no_mangle)]
pub extern "C" fn clumarief_raw_class_name(
    classes: &[ClassRow],
    members: &[MemberRow],
    pool: &[u8],
    used: &[u32; 3],
    display: &[u8],
    answer: &mut [u32; 4],
)
    ensures { let lent = tables classes.now members.now pool.now in
        answer.new ≡ raw_numbers lent (used_by used.now) display.now }
{
    let turned = raw_class_name(classes, members, pool, used_of(*used), display);
    *answer = class_numbers(turned);
}

// What a raw descriptor shows as: a part of the pool, or the caller's own descriptor. C takes no slice back, so the part is said by its
// place: that of the display descriptor.
#[unsafe(no_mangle)]
pub extern "C" fn clumarief_mapped_class_name(
    classes: &[ClassRow],
    members: &[MemberRow],
    pool: &[u8],
    used: &[u32; 3],
    raw: &[u8],
    answer: &mut [u32; 3],
)
    ensures { let lent = tables classes.now members.now pool.now in
        answer.new ≡ mapped_numbers (display_of_class lent (used_by used.now) raw.now) }
{
    let shown = display_class_name(classes, members, pool, used_of(*used), raw);
    *answer = mapped_numbers(shown);
}
