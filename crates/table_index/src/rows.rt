// What a row is looked for by.
ghost use Rattle.std.specs.Prelude.{◌≡◌, ◌<◌, length, get_or, []};
ghost use Rattle.table_index.specs.Inner.Keys.{keys_of};

use table_rows::{ClassRow, unpack_class};
use tables::{Side, text_in, text_on};

// The descriptor of a row.
pub fn row_text<'a>(side: Side, classes: &[ClassRow], pool: &'a [u8], row: usize) -> &'a [u8]
    requires { row < length classes.now }
    ensures { result.now ≡ get_or (keys_of side classes.now pool.now) row [] }
{
    text_in(pool, text_on(side, unpack_class(classes[row])))
}
