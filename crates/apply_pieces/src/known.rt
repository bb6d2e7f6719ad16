// The first class piece of a descriptor that is known.
ghost use Rattle.std.specs.Prelude.{◌≤◌, length};
ghost use Rattle.tables.specs.declared.search.Side.TheVariants.{Raw};
ghost use Rattle.table_index.specs.Inner.Index.{IndexBy};
ghost use Rattle.apply_pieces.specs.Inner.Known.{PieceBy, KnownBy};

use table_index::last_raw;
use table_rows::ClassRow;
use text_places::first_byte;

// A class piece by where it starts, and the last class row that has it as its raw descriptor.
#[derive(Clone, Copy)]
pub struct KnownPiece {
    pub start: usize,
    pub row: usize,
}

// A class piece by where it starts, and the place behind it.
#[derive(Clone, Copy)]
pub struct NextPiece {
    pub start: usize,
    pub end: usize,
}

// The first class piece of a descriptor, from a place on: it runs from an `L` to the next `;`.
fn next_piece(text: &[u8], from: usize) -> Option<NextPiece>
    requires { «from» ≤ length text.now }
    ensures { PieceBy result text.now «from» }
{
    let plain = first_byte(&text[from..], b'L')?;
    let start = from + plain;
    let gap = first_byte(&text[start..], b';')?;
    let end = start + gap + 1;
    Some(NextPiece { start, end })
}

// The first class piece of a descriptor, from a place on, that is known.
pub fn first_known(
    index: &[u16],
    classes: &[ClassRow],
    pool: &[u8],
    text: &[u8],
    from: usize,
) -> Option<KnownPiece>
    requires { («from» ≤ length text.now) × IndexBy Raw classes.now pool.now index.now }
    ensures { KnownBy result classes.now pool.now text.now «from» }
{
    let mut at = from;
    loop {
        let NextPiece { start, end } = next_piece(text, at)?;
        match last_raw(index, classes, pool, &text[start..end]) {
            Some(row) => {
                return Some(KnownPiece { start, row });
            }
            None => {
                at = end;
            }
        }
    }
}
