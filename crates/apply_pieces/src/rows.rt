// Class rows by their raw descriptors.
ghost use Rattle.std.specs.Prelude.{◌≡◌, ◌<◌, length};
ghost use Rattle.tables.specs.declared.search.Side.TheVariants.{Raw};
ghost use Rattle.tables.specs.Search.{last_raw};
ghost use Rattle.table_index.specs.Inner.Index.{IndexBy};
ghost use Rattle.apply_pieces.specs.Inner.Known.{raw_of};
ghost use Rattle.apply_pieces.specs.Inner.Sought.{RawsTo};

use table_index::last_raw;
use table_rows::{ClassRow, unpack_class};
use tables::text_in;

// How long the raw descriptor of a class row is.
pub fn raw_length(classes: &[ClassRow], pool: &[u8], row: usize) -> usize
    requires { row < length classes.now }
    ensures { result ≡ length (raw_of classes.now pool.now row) }
{
    let class = unpack_class(classes[row]);
    let raw = text_in(pool, class.raw);
    raw.len()
}

// A length that no raw descriptor exceeds.
pub fn longest_raw(classes: &[ClassRow], pool: &[u8]) -> usize
    ensures { RawsTo (length classes.now) classes.now pool.now result }
{
    let mut longest = 0;
    for row in 0..classes.len() {
        let length = raw_length(classes, pool, row);
        if longest < length {
            longest = length;
        }
    }
    longest
}

// The last class row with a piece as its raw descriptor. A piece that is longer than all of them is not read: it may be as long as the
// file, and looked up for each name.
pub fn row_of(
    index: &[u16],
    classes: &[ClassRow],
    pool: &[u8],
    longest: usize,
    piece: &[u8],
) -> Option<usize>
    requires { RawsTo (length classes.now) classes.now pool.now longest × IndexBy Raw classes.now pool.now index.now }
    ensures { result ≡ last_raw classes.now pool.now piece.now }
{
    if longest < piece.len() {
        return None;
    }
    last_raw(index, classes, pool, piece)
}
