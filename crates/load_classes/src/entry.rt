// One class: its descriptors in the pool, and its row.
ghost use Rattle.std.specs.Prelude.{◌≡◌, ◌≤◌, ◌<◌, ◌-◌, length};
ghost use Rattle.text_places.specs.Spans.{Lies};
ghost use Rattle.table_pool.specs.Names.{class_descriptor};
ghost use Rattle.table_pool.specs.Inner.Wrote.{TwoBy};
ghost use Rattle.table_rows.specs.Rows.{text, pack_class, most_pool};
ghost use Rattle.load_classes.specs.Inner.Entries.{EnteredClassBy};
ghost use Rattle.load_classes.specs.Inner.Names.{class_named};

use crate::names::ClassNames;
use table_pool::{NoRoom, TwoTexts, put_class};
use table_rows::{Class, ClassRow, pack_class, text_between};

// "each class row's raw then display"
fn put_pair(pool: &mut [u8], at: usize, raw: &[u8], display: &[u8]) -> Result<TwoTexts, NoRoom>
    ensures { TwoBy result pool.old at (class_descriptor raw.now) (class_descriptor display.now)
        pool.new }
{
    let middle = put_class(pool, at, raw)?;
    let next = put_class(pool, middle, display)?;
    Ok(TwoTexts {
        second: middle,
        next,
    })
}

// The row of a class whose raw descriptor runs from `at` to `middle`, and its display descriptor from there to `next`.
fn class_row(at: usize, middle: usize, next: usize) -> ClassRow
    requires { (at ≤ middle) × (middle ≤ next) × (next ≤ most_pool) }
    ensures { result ≡ pack_class (record { raw = text at (middle - at); display = text middle (next - middle) }) }
{
    pack_class(Class {
        raw: text_between(at, middle),
        display: text_between(middle, next),
    })
}

// A class line by its names: the class of the row `count`, with its descriptors from the place `at` on.
pub fn enter_class(
    classes: &mut [ClassRow],
    pool: &mut [u8],
    count: usize,
    at: usize,
    line: &[u8],
    names: ClassNames,
) -> Result<usize, NoRoom>
    requires { (count < length classes.old)
        × (length pool.old ≤ most_pool)
        × Lies names.display (length line.now)
        × Lies names.raw (length line.now) }
    ensures { EnteredClassBy result (class_named line.now names) count at classes.old pool.old
        classes.new pool.new }
{
    let start = names.raw.start;
    let end = names.raw.end;
    let first = names.display.start;
    let last = names.display.end;
    let TwoTexts {
        second: middle,
        next,
    } = put_pair(pool, at, &line[start..end], &line[first..last])?;
    classes[count] = class_row(at, middle, next);
    Ok(next)
}
