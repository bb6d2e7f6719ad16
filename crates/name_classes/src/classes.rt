// Class names out of tables that the caller lends.
ghost use Rattle.std.specs.Prelude.{◌≡◌, [], ◌<◌, length, get_or};
ghost use Rattle.table_rows.specs.Rows.{unpack_class};
ghost use Rattle.table_rows.specs.Tables.{tables};
ghost use Rattle.name_classes.specs.ClassNames.{display_of_class, raw_of_class, mapped_class, class_name_numbers, display_numbers, raw_numbers};

use table_rows::{Class, ClassRow, MemberRow, Text, unpack_class};
use tables::{Malformed, Used, last_with_display, last_with_raw, text_in, well_formed};

fn class_at(rows: &[ClassRow], row: usize) -> Class
    requires { row < length rows.now }
    ensures { result ≡ unpack_class (get_or rows.now row []) }
{
    unpack_class(rows[row])
}

// Where the display descriptor of a class stands in the pool, by its raw one.
pub fn display_class_name(
    classes: &[ClassRow],
    members: &[MemberRow],
    pool: &[u8],
    used: Used,
    raw: &[u8],
) -> Result<Option<Text>, Malformed>
    ensures { let lent = tables classes.now members.now pool.now in
        let name = raw.now in
        (result ≡ display_of_class lent used name) × (class_name_numbers result ≡ display_numbers lent used name) }
{
    if !well_formed(classes, members, pool, used) {
        return Err(Malformed);
    }
    let count = used.classes as usize;
    let rows = &classes[..count];
    let Some(row) = last_with_raw(rows, pool, raw) else {
        return Ok(None);
    };
    Ok(Some(class_at(rows, row).display))
}

// Where the raw descriptor of a class stands in the pool, by its display one.
pub fn raw_class_name(
    classes: &[ClassRow],
    members: &[MemberRow],
    pool: &[u8],
    used: Used,
    display: &[u8],
) -> Result<Option<Text>, Malformed>
    ensures { let lent = tables classes.now members.now pool.now in
        let name = display.now in
        (result ≡ raw_of_class lent used name) × (class_name_numbers result ≡ raw_numbers lent used name) }
{
    if !well_formed(classes, members, pool, used) {
        return Err(Malformed);
    }
    let count = used.classes as usize;
    let rows = &classes[..count];
    let Some(row) = last_with_display(rows, pool, display) else {
        return Ok(None);
    };
    Ok(Some(class_at(rows, row).raw))
}

// What a raw descriptor shows as: a part of the pool, or the descriptor itself where the class is unknown or the tables are malformed.
pub fn mapped_class_name<'a>(
    classes: &[ClassRow],
    members: &[MemberRow],
    pool: &'a [u8],
    used: Used,
    raw: &'a [u8],
) -> &'a [u8]
    ensures { let lent = tables classes.now members.now pool.now in
        result.now ≡ mapped_class lent used raw.now }
{
    if !well_formed(classes, members, pool, used) {
        return raw;
    }
    let count = used.classes as usize;
    let rows = &classes[..count];
    let Some(last) = last_with_raw(rows, pool, raw) else {
        return raw;
    };
    text_in(pool, class_at(rows, last).display)
}
