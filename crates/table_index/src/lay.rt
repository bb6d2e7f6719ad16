// The places of the shelves: one after the other, each with room for its rows.
ghost use Rattle.std.specs.Prelude.{◌≡◌, ◌+◌, ◌<◌, ◌≤◌, length, get_or};
ghost use Rattle.table_rows.specs.Rows.{most_classes};
ghost use Rattle.table_index.specs.Inner.Index.{ends_at, index_size, placed, rows_before, Laid};

use crate::parts::{ENDS_AT, STARTS_AT, wide_number};

// The shelf of a head, which is empty yet; answers where the next one starts.
fn lay_shelf(index: &mut [u16], head: usize, start: usize) -> usize
    requires { (length index.old ≡ index_size) × (head < most_classes) × (start ≤ most_classes) }
    ensures { (result ≡ start + get_or index.old (ends_at + head) 0)
        × (index.new ≡ placed index.old head start) }
{
    let count = wide_number(index[ENDS_AT + head]);
    index[STARTS_AT + head] = start as u16;
    index[ENDS_AT + head] = start as u16;
    start + count
}

// The shelves of `count` heads. Of a row that is no head the shelf stays empty.
pub fn lay_shelves(index: &mut [u16], count: usize)
    requires { (length index.old ≡ index_size) × (count ≤ most_classes) × (rows_before index.old count ≤ most_classes) }
    ensures { Laid index.old count index.new count (rows_before index.old count) }
{
    let mut start = 0;
    for head in 0..count {
        start = lay_shelf(index, head, start);
    }
}
