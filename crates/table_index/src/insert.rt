// Rows onto their shelves.
ghost use Rattle.std.specs.Prelude.{◌≡◌, [], ◌+◌, ◌<◌, ◌≤◌, length, get_or};
ghost use Rattle.table_rows.specs.Rows.{most_classes};
ghost use Rattle.table_index.specs.Inner.Keys.{keys_of};
ghost use Rattle.table_index.specs.Inner.Shelves.{Ranked, Bound, Inserted};
ghost use Rattle.table_index.specs.Inner.Index.{index_size, Filed, ShelvedClasses};

use crate::forms::NameForm;
use crate::parts::{ENDS_AT, HEADS_AT, shelf_at, wide_number};
use crate::rows::row_text;
use crate::search::upper_bound;
use table_rows::ClassRow;
use tables::Side;

// A row at a place: what stands from there to `end` stands one place further.
fn insert_at(index: &mut [u16], place: usize, end: usize, row: usize)
    requires { (place ≤ «end») × («end» < length index.old) × (row < most_classes) }
    ensures { Inserted index.old index.new place «end» row }
{
    let mut i = end;
    while place < i {
        let before = i - 1;
        let moved = index[before];
        index[i] = moved;
        i = before;
    }
    index[place] = row as u16;
}

// A row at a place of the shelf of its head, which is one row longer then.
fn file_row(index: &mut [u16], place: usize, end: usize, row: usize, head: usize)
    requires { (length index.old ≡ index_size)
        × (place ≤ «end»)
        × («end» < most_classes)
        × (row < most_classes)
        × (head < most_classes) }
    ensures { Filed index.old index.new place «end» row head }
{
    insert_at(index, place, end, row);
    let next = end + 1;
    index[ENDS_AT + head] = next as u16;
}

// The place of a row from `start` to `end`: behind all rows whose text is at or before its own.
fn place_for(
    index: &[u16],
    side: Side,
    classes: &[ClassRow],
    pool: &[u8],
    start: usize,
    end: usize,
    row: usize,
) -> usize
    requires { Ranked (keys_of side classes.now pool.now) index.now (length classes.now) start «end»
        × (row < length classes.now) }
    ensures { let keys = keys_of side classes.now pool.now in
        Bound keys index.now start «end» (get_or keys row []) result }
{
    // Mostly no row has the mark yet.
    if start == end {
        return start;
    }
    let text = row_text(side, classes, pool, row);
    upper_bound(
        index,
        side,
        classes,
        pool,
        start,
        end,
        text,
        NameForm::Whole,
    )
}

fn insert_row(index: &mut [u16], side: Side, classes: &[ClassRow], pool: &[u8], row: usize)
    requires { ShelvedClasses side classes.now pool.now index.old row × (row < length classes.now) }
    ensures { ShelvedClasses side classes.now pool.now index.new (row + 1) }
{
    let head = wide_number(index[HEADS_AT + row]);
    let shelf = shelf_at(index, head);
    let start = shelf.start;
    let end = shelf.end;
    let place = place_for(index, side, classes, pool, start, end, row);
    file_row(index, place, end, row, head);
}

// All rows.
pub fn insert_rows(index: &mut [u16], side: Side, classes: &[ClassRow], pool: &[u8])
    requires { ShelvedClasses side classes.now pool.now index.old 0 }
    ensures { let rows = classes.now in
        ShelvedClasses side rows pool.now index.new (length rows) }
{
    for row in 0..classes.len() {
        insert_row(index, side, classes, pool, row);
    }
}
