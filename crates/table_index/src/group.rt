// The head of each row: the first row with its mark.
ghost use Rattle.std.specs.Prelude.{◌≡◌, ◌+◌, ◌<◌, ◌≤◌, length, get_or, replicate};
ghost use Rattle.table_rows.specs.Rows.{most_classes};
ghost use Rattle.table_index.specs.Inner.Index.{ends_at, index_size, joined, GroupedClasses};

use crate::marks::mark_whole;
use crate::parts::{ENDS_AT, HEADS_AT, MARKS_AT, wide_number};
use crate::rows::row_text;
use table_rows::ClassRow;
use tables::Side;

// A row and its head: the shelf of the head will have one row more.
fn join_head(index: &mut [u16], row: usize, head: usize)
    requires { (length index.old ≡ index_size)
        × (row < most_classes)
        × (head < most_classes)
        × (get_or index.old (ends_at + head) 0 < most_classes) }
    ensures { index.new ≡ joined index.old row head }
{
    let count = index[ENDS_AT + head];
    let more = count + 1;
    index[HEADS_AT + row] = head as u16;
    index[ENDS_AT + head] = more;
}

fn group_row(index: &mut [u16], side: Side, classes: &[ClassRow], pool: &[u8], row: usize)
    requires { GroupedClasses side classes.now pool.now index.old row × (row < length classes.now) }
    ensures { GroupedClasses side classes.now pool.now index.new (row + 1) }
{
    let mark = mark_whole(row_text(side, classes, pool, row));
    let first = wide_number(index[MARKS_AT + mark]);
    if first == 0 {
        let number = row + 1;
        index[MARKS_AT + mark] = number as u16;
        join_head(index, row, row);
        return;
    }
    join_head(index, row, first - 1);
}

// All rows.
pub fn group_rows(index: &mut [u16], side: Side, classes: &[ClassRow], pool: &[u8])
    requires { (index.old ≡ replicate index_size 0) × (length classes.now ≤ most_classes) }
    ensures { let rows = classes.now in
        GroupedClasses side rows pool.now index.new (length rows) }
{
    for row in 0..classes.len() {
        group_row(index, side, classes, pool, row);
    }
}
