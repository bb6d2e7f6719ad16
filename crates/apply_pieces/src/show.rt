// A descriptor with each class piece that is known turned to its display.
ghost use Rattle.std.specs.Prelude.{◌++◌, ◌≤◌, ◌<◌, length};
ghost use Rattle.ground.specs.Put.{between};
ghost use Rattle.table_pool.specs.Inner.Wrote.{WroteBy};
ghost use Rattle.tables.specs.declared.search.Side.TheVariants.{Raw};
ghost use Rattle.table_index.specs.Inner.Index.{IndexBy};
ghost use Rattle.apply_pieces.specs.Inner.Known.{display_of, all_shown, KnownAt};

use crate::known::{KnownPiece, first_known};
use crate::rows::raw_length;
use table_pool::{NoRoom, put_text};
use table_rows::{ClassRow, unpack_class};
use tables::text_in;

// What stands before a piece, and the display descriptor of the row that has it.
fn put_one(
    out: &mut [u8],
    at: usize,
    text: &[u8],
    from: usize,
    start: usize,
    row: usize,
    classes: &[ClassRow],
    pool: &[u8],
) -> Result<usize, NoRoom>
    requires { («from» ≤ start) × (start ≤ length text.now) × (row < length classes.now) }
    ensures { WroteBy result out.old at
        (between text.now «from» start ++ display_of classes.now pool.now row) out.new }
{
    let plain = put_text(out, at, &text[from..start])?;
    let class = unpack_class(classes[row]);
    let display = text_in(pool, class.display);
    put_text(out, plain, display)
}

// A descriptor by its first piece that is known, written at a place.
pub fn put_shown(
    out: &mut [u8],
    at: usize,
    text: &[u8],
    start: usize,
    row: usize,
    index: &[u16],
    classes: &[ClassRow],
    pool: &[u8],
) -> Result<usize, NoRoom>
    requires { IndexBy Raw classes.now pool.now index.now × KnownAt classes.now pool.now text.now 0 start row }
    ensures { WroteBy result out.old at (all_shown classes.now pool.now text.now) out.new }
{
    let mut from = 0;
    let mut piece = start;
    let mut known = row;
    let mut next = at;
    loop {
        let after = put_one(out, next, text, from, piece, known, classes, pool)?;
        from = piece + raw_length(classes, pool, known);
        if text.len() <= from {
            return Ok(after);
        }
        match first_known(index, classes, pool, text, from) {
            None => {
                return put_text(out, after, &text[from..]);
            }
            Some(KnownPiece { start, row }) => {
                next = after;
                piece = start;
                known = row;
            }
        }
    }
}
