// The last class row with a given descriptor. Every function takes any rows and any pool: a text that reaches past the pool's end counts
// as what of it stands in the pool.
ghost use Rattle.std.specs.Prelude.{◌≡◌};
ghost use Rattle.tables.specs.Search.{text_on, last_with, last_raw, last_display};

use crate::texts::text_in;
use table_rows::{Class, ClassRow, Text, unpack_class};
use text_places::same_bytes;

// By which of its two descriptors a class is looked for.
#[derive(Clone, Copy)]
pub enum Side {
    Raw,
    Display,
}

pub fn text_on(side: Side, class: Class) -> Text
    ensures { result ≡ text_on side class }
{
    match side {
        Side::Raw => class.raw,
        Side::Display => class.display,
    }
}

// Rows are asked from the last one on. Lengths are compared before bytes.
fn last_with(side: Side, classes: &[ClassRow], pool: &[u8], name: &[u8]) -> Option<usize>
    ensures { result ≡ last_with side classes.now pool.now name.now }
{
    let mut end = classes.len();
    while 0 < end {
        let at = end - 1;
        let text = text_on(side, unpack_class(classes[at]));
        if same_bytes(text_in(pool, text), name) {
            return Some(at);
        }
        end = at;
    }
    None
}

// The last class row with a raw descriptor.
pub fn last_with_raw(classes: &[ClassRow], pool: &[u8], raw: &[u8]) -> Option<usize>
    ensures { result ≡ last_raw classes.now pool.now raw.now }
{
    last_with(Side::Raw, classes, pool, raw)
}

// The last class row with a display descriptor.
pub fn last_with_display(classes: &[ClassRow], pool: &[u8], display: &[u8]) -> Option<usize>
    ensures { result ≡ last_display classes.now pool.now display.now }
{
    last_with(Side::Display, classes, pool, display)
}
