// The parts of the table.
ghost use Rattle.std.specs.Prelude.{◌≡◌, ◌<◌, length};
ghost use Rattle.table_rows.specs.Rows.{most_classes};
ghost use Rattle.table_index.specs.Inner.Index.{index_size, ShelfAt};

use text_places::Span;

// Where each part starts. Before them all stand the rows, in the order of shelves and of texts.

// The head of each row.
pub const HEADS_AT: usize = 4096;

// Where the shelf of each head starts.
pub const STARTS_AT: usize = 8192;

// And where it ends.
pub const ENDS_AT: usize = 12288;

// The number of the head of each mark.
pub const MARKS_AT: usize = 16384;

// The numbers of the table.
pub const INDEX: usize = 24576;

pub fn wide_number(x: u16) -> usize
    ensures { result ≡ x }
{
    x as usize
}

// Where the shelf of a head starts and ends.
pub fn shelf_at(index: &[u16], head: usize) -> Span
    requires { (length index.now ≡ index_size) × (head < most_classes) }
    ensures { ShelfAt index.now head result.start result.«end» }
{
    let start = wide_number(index[STARTS_AT + head]);
    let end = wide_number(index[ENDS_AT + head]);
    Span { start, end }
}
