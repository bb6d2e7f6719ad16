// The last class row with a descriptor: among the rows with its mark, by halving.
ghost use Rattle.std.specs.Prelude.{◌≡◌, [], ◌<◌, ◌≤◌, length, get_or, Some, None};
ghost use Rattle.ground.specs.Choice.{pick};
ghost use Rattle.text_places.specs.Places.{same};
ghost use Rattle.tables.specs.declared.search.Side.TheVariants.{Raw};
ghost use Rattle.tables.specs.Search.{last_with, last_raw};
ghost use Rattle.table_index.specs.Inner.Forms.{spelled};
ghost use Rattle.table_index.specs.Inner.Keys.{keys_of};
ghost use Rattle.table_index.specs.Inner.Shelves.{Ranked, Bound, LastOn};
ghost use Rattle.table_index.specs.Inner.Index.{IndexBy};

use crate::forms::{NameForm, compare_named, is_named};
use crate::marks::{mark_of, mark_whole};
use crate::parts::{INDEX, MARKS_AT, shelf_at, wide_number};
use crate::rows::row_text;
use crate::texts::not_after;
use table_rows::ClassRow;
use tables::{Side, last_with_raw};

// A place between two.
fn middle_of(low: usize, high: usize) -> usize
    requires { low < high }
    ensures { (low ≤ result) × (result < high) }
{
    low + (high - low) / 2
}

// The place behind the rows from `start` to `end` whose text stands at or before what the name stands for.
pub fn upper_bound(
    index: &[u16],
    side: Side,
    classes: &[ClassRow],
    pool: &[u8],
    start: usize,
    end: usize,
    name: &[u8],
    form: NameForm,
) -> usize
    requires { Ranked (keys_of side classes.now pool.now) index.now (length classes.now) start «end» }
    ensures { let keys = keys_of side classes.now pool.now in
        Bound keys index.now start «end» (spelled form name.now) result }
{
    let mut low = start;
    let mut high = end;
    while low < high {
        let middle = middle_of(low, high);
        let row = wide_number(index[middle]);
        let text = row_text(side, classes, pool, row);
        if not_after(compare_named(text, name, form)) {
            low = middle + 1;
            continue;
        }
        high = middle;
        continue;
    }
    low
}

// The last row up to a name, if its descriptor is what the name stands for.
fn row_if_named(
    side: Side,
    classes: &[ClassRow],
    pool: &[u8],
    last: usize,
    name: &[u8],
    form: NameForm,
) -> Option<usize>
    requires { last < length classes.now }
    ensures { let text = get_or (keys_of side classes.now pool.now) last [] in
        result ≡ pick (same text (spelled form name.now)) (Some last) None }
{
    if is_named(row_text(side, classes, pool, last), name, form) {
        return Some(last);
    }
    None
}

// The last row from `start` to `end` whose descriptor is what the name stands for: each is asked, from the last one on.
fn last_of_few(
    index: &[u16],
    side: Side,
    classes: &[ClassRow],
    pool: &[u8],
    start: usize,
    end: usize,
    name: &[u8],
    form: NameForm,
) -> Option<usize>
    requires { Ranked (keys_of side classes.now pool.now) index.now (length classes.now) start «end» }
    ensures { let keys = keys_of side classes.now pool.now in
        LastOn result keys index.now start «end» (spelled form name.now) }
{
    let mut after = end;
    while start < after {
        let place = after - 1;
        let row = wide_number(index[place]);
        if is_named(row_text(side, classes, pool, row), name, form) {
            return Some(row);
        }
        after = place;
    }
    None
}

// So many rows are asked one by one faster than by halving.
const FEW: usize = 4;

// The same for few or many rows.
fn last_between(
    index: &[u16],
    side: Side,
    classes: &[ClassRow],
    pool: &[u8],
    start: usize,
    end: usize,
    name: &[u8],
    form: NameForm,
) -> Option<usize>
    requires { Ranked (keys_of side classes.now pool.now) index.now (length classes.now) start «end» }
    ensures { let keys = keys_of side classes.now pool.now in
        LastOn result keys index.now start «end» (spelled form name.now) }
{
    if end - start <= FEW {
        return last_of_few(index, side, classes, pool, start, end, name, form);
    }
    let place = upper_bound(index, side, classes, pool, start, end, name, form);
    if place == start {
        return None;
    }
    let last = wide_number(index[place - 1]);
    row_if_named(side, classes, pool, last, name, form)
}

// The last of all rows whose descriptor is what the name stands for: each is asked, from the last one on.
fn last_scanned(
    side: Side,
    classes: &[ClassRow],
    pool: &[u8],
    name: &[u8],
    form: NameForm,
) -> Option<usize>
    ensures { result ≡ last_with side classes.now pool.now (spelled form name.now) }
{
    let mut end = classes.len();
    while 0 < end {
        let at = end - 1;
        if is_named(row_text(side, classes, pool, at), name, form) {
            return Some(at);
        }
        end = at;
    }
    None
}

// The last class row whose descriptor on one side is what the name stands for. Where few rows are to be searched the caller may save the
// table, and give a shorter one.
pub fn last_named(
    index: &[u16],
    side: Side,
    classes: &[ClassRow],
    pool: &[u8],
    name: &[u8],
    form: NameForm,
) -> Option<usize>
    requires { IndexBy side classes.now pool.now index.now }
    ensures { result ≡ last_with side classes.now pool.now (spelled form name.now) }
{
    if index.len() != INDEX {
        return last_scanned(side, classes, pool, name, form);
    }
    let mark = mark_of(name, form);
    let first = wide_number(index[MARKS_AT + mark]);
    if first == 0 {
        return None;
    }
    let shelf = shelf_at(index, first - 1);
    let start = shelf.start;
    let end = shelf.end;
    last_between(index, side, classes, pool, start, end, name, form)
}

// The last class row with a raw descriptor. It does what `last_named` does: that one is for loading alone, so that the compiler makes it
// for its one caller.
pub fn last_raw(index: &[u16], classes: &[ClassRow], pool: &[u8], raw: &[u8]) -> Option<usize>
    requires { IndexBy Raw classes.now pool.now index.now }
    ensures { result ≡ last_raw classes.now pool.now raw.now }
{
    // made anew of its two numbers: a slice that was just made is waited for where it is handed on whole
    let key = &raw[..];
    if index.len() != INDEX {
        return last_with_raw(classes, pool, key);
    }
    let form = NameForm::Whole;
    let mark = mark_whole(key);
    let first = wide_number(index[MARKS_AT + mark]);
    if first == 0 {
        return None;
    }
    let shelf = shelf_at(index, first - 1);
    let start = shelf.start;
    let end = shelf.end;
    last_between(index, Side::Raw, classes, pool, start, end, key, form)
}
