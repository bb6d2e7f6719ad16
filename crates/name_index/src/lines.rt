// Lines of a method, by the last of its rows.
ghost use Rattle.std.specs.Prelude.{◌≡◌, false, [], ◌<◌, length, get_or, Some};
ghost use Rattle.table_rows.specs.Rows.{unpack_class, unpack_member};
ghost use Rattle.tables.specs.Back.{text_in, read_back};
ghost use Rattle.tables.specs.Search.{last_raw};
ghost use Rattle.name_rule.specs.Mappings.{mapping, entries_back};
ghost use Rattle.name_lines.specs.LineNames.{holds_line};
ghost use Rattle.name_rule.specs.MemberNames.{line_of_method};
ghost use Rattle.name_rule.specs.MemberRows.{line_row};
ghost use Rattle.name_index.specs.Inner.Chains.{Chained, key_of_row, own_row};

use crate::chained::{last_linked, wide_number};
use crate::chains::{MARKS, raw_of};
use name_lines::{DisplayLine, RawLine, holds_line, translated};
use name_members::{Sought, display_of};
use table_rows::{ClassRow, MemberRow, Ranges, unpack_member};
use tables::text_in;

fn ranges_of(members: &[MemberRow], row: usize) -> Ranges
    requires { row < length members.now }
    ensures { result ≡ (unpack_member (get_or members.now row [])).ranges }
{
    unpack_member(members[row]).ranges
}

fn name_of<'a>(members: &[MemberRow], pool: &'a [u8], row: usize) -> &'a [u8]
    requires { row < length members.now }
    ensures { result.now ≡ text_in pool.now (unpack_member (get_or members.now row [])).raw_name }
{
    text_in(pool, unpack_member(members[row]).raw_name)
}

fn descriptor_of<'a>(members: &[MemberRow], pool: &'a [u8], row: usize) -> &'a [u8]
    requires { row < length members.now }
    ensures { result.now ≡ text_in pool.now (unpack_member (get_or members.now row [])).descriptor }
{
    text_in(pool, unpack_member(members[row]).descriptor)
}

// The row that answers for a line which that row's raw range does not hold: one before it with the same mark.
fn row_before(
    index: &[u16],
    classes: &[ClassRow],
    members: &[MemberRow],
    pool: &[u8],
    class: usize,
    row: usize,
    line: RawLine,
) -> Option<usize>
    requires { Chained classes.now pool.now members.now index.now (length members.now)
        × (last_raw classes.now pool.now (text_in pool.now (unpack_class (get_or classes.now class [])).raw) ≡ Some class)
        × (own_row classes.now members.now pool.now (key_of_row classes.now members.now pool.now class row) ≡ Some row)
        × (holds_line (unpack_member (get_or members.now row [])).ranges line ≡ false) }
    ensures { let p = pool.now in
        let rows = members.now in
        result ≡ line_row (read_back classes.now p) (key_of_row classes.now rows p class row) line rows p }
{
    let before = wide_number(index[MARKS + row]);
    last_linked(
        index,
        classes,
        members,
        pool,
        display_of(classes, pool, class),
        raw_of(classes, pool, class),
        name_of(members, pool, row),
        descriptor_of(members, pool, row),
        Sought::OwnLine(line),
        before,
    )
}

// The display line of a raw line, by the last row of a method whose display owner is the class's display: that row answers most lines, and
// the rows before it with the same mark are asked for the others.
pub fn line_by_row(
    index: &[u16],
    classes: &[ClassRow],
    members: &[MemberRow],
    pool: &[u8],
    class: usize,
    row: usize,
    line: RawLine,
) -> Option<DisplayLine>
    requires { Chained classes.now pool.now members.now index.now (length members.now)
        × (last_raw classes.now pool.now (text_in pool.now (unpack_class (get_or classes.now class [])).raw) ≡ Some class)
        × (own_row classes.now members.now pool.now (key_of_row classes.now members.now pool.now class row) ≡ Some row) }
    ensures { let p = pool.now in
        let rows = members.now in
        let k = key_of_row classes.now rows p class row in
        result ≡ line_of_method (mapping (read_back classes.now p) (entries_back rows p)) k line }
{
    let ranges = ranges_of(members, row);
    if holds_line(ranges, line) {
        return translated(ranges, line);
    }
    let answer = row_before(index, classes, members, pool, class, row, line)?;
    translated(ranges_of(members, answer), line)
}
