// Raw descriptors of display types. The descriptor of the display type is written nowhere: its pieces are found in the type's own text.
ghost use Rattle.std.specs.Prelude.{◌≡◌, true, ◌≤◌, length};
ghost use Rattle.ground.specs.Look.{look_or};
ghost use Rattle.text_places.specs.Places.{first_where, starts};
ghost use Rattle.table_rows.specs.Classes.{back};
ghost use Rattle.descriptor.specs.Pieces.{turn};
ghost use Rattle.descriptor.specs.Types.{base_of, base_bytes};
ghost use Rattle.table_pool.specs.Inner.Wrote.{WroteBy};
ghost use Rattle.tables.specs.Back.{read_back};
ghost use Rattle.descriptor.specs.Raw.{raw_type_of};
ghost use Rattle.table_pool.specs.Inner.Named.{class_piece};
ghost use Rattle.load_raw_types.specs.Inner.Behind.{Indexed};
ghost use Rattle.load_raw_types.specs.Inner.Stretches.{InsideBy, OutsideBy};

use descriptor::{Base, type_shape};
use table_index::{NameForm, last_named};
use table_pool::{NoRoom, put_bytes, put_closed, put_copy, put_name, put_piece};
use table_rows::{ClassRow, unpack_class};
use tables::Side;
use text_places::first_byte;

fn wide(x: u32) -> usize
    ensures { result ≡ x }
{
    x as usize
}

// One class piece, turned to raw.
fn put_raw_piece(
    pool: &mut [u8],
    at: usize,
    name: &[u8],
    dots: bool,
    classes: &[ClassRow],
    index: &[u16],
) -> Result<usize, NoRoom>
    requires { Indexed classes.now pool.old index.now at }
    ensures { let cs = read_back classes.now pool.old in
        WroteBy result pool.old at
        (look_or (class_piece dots name.now) (back cs (class_piece dots name.now))) pool.new }
{
    let form = NameForm::Piece(dots);
    match last_named(index, Side::Display, classes, pool, name, form) {
        Some(row) => {
            let class = unpack_class(classes[row]);
            let place = wide(class.raw.place);
            let size = wide(class.raw.length);
            put_copy(pool, at, place, size)
        }
        None => put_piece(pool, at, name, dots),
    }
}

// The first place of a byte. Pieces often follow each other at once: that is seen here, and no search is called.
fn first_place(s: &[u8], b: u8) -> Option<usize>
    ensures { result ≡ first_where (starts b) s.now }
{
    if s.len() == 0 {
        return None;
    }
    if s[0] == b {
        return Some(0);
    }
    first_byte(s, b)
}

// How far a text that stands between an `L` and a last `;` was written.
#[derive(Clone, Copy)]
pub enum Stretch {
    // It goes on: the places in the pool and in the text.
    More(usize, usize),
    // All of it, and the last `;`: the place in the pool.
    Last(usize),
    NoRoom,
}

// The class piece whose `L` stands before `start`, turned to raw: up to behind its `;`.
fn put_first(
    pool: &mut [u8],
    at: usize,
    text: &[u8],
    start: usize,
    dots: bool,
    classes: &[ClassRow],
    index: &[u16],
) -> Stretch
    requires { (start ≤ length text.now) × Indexed classes.now pool.old index.now at }
    ensures { let cs = read_back classes.now pool.old in
        InsideBy result (back cs) dots text.now start pool.old at pool.new }
{
    let Some(gap) = first_place(&text[start..], b';') else {
        let Ok(ended) = put_raw_piece(pool, at, &text[start..], dots, classes, index) else {
            return Stretch::NoRoom;
        };
        return Stretch::Last(ended);
    };
    let end = start + gap;
    let Ok(turned) = put_raw_piece(pool, at, &text[start..end], dots, classes, index) else {
        return Stretch::NoRoom;
    };
    Stretch::More(turned, end + 1)
}

// What stands between two class pieces: up to behind the next `L`.
fn put_plain(pool: &mut [u8], at: usize, text: &[u8], start: usize, dots: bool) -> Stretch
    requires { start ≤ length text.now }
    ensures { OutsideBy result dots text.now start pool.old at pool.new }
{
    let Some(gap) = first_place(&text[start..], b'L') else {
        let Ok(ended) = put_closed(pool, at, &text[start..], dots) else {
            return Stretch::NoRoom;
        };
        return Stretch::Last(ended);
    };
    let end = start + gap;
    let Ok(after) = put_name(pool, at, &text[start..end], dots) else {
        return Stretch::NoRoom;
    };
    Stretch::More(after, end + 1)
}

// `L`, a text, `;`, each class piece turned to raw. A `;` in the text ends a piece, and the next `L` begins one.
fn put_raw_pieces(
    pool: &mut [u8],
    at: usize,
    text: &[u8],
    dots: bool,
    classes: &[ClassRow],
    index: &[u16],
) -> Result<usize, NoRoom>
    requires { Indexed classes.now pool.old index.now at }
    ensures { let cs = read_back classes.now pool.old in
        WroteBy result pool.old at (turn (back cs) (class_piece dots text.now)) pool.new }
{
    let mut start = 0;
    let mut next = at;
    loop {
        match put_first(pool, next, text, start, dots, classes, index) {
            Stretch::NoRoom => {
                return Err(NoRoom);
            }
            Stretch::Last(ended) => {
                return Ok(ended);
            }
            Stretch::More(turned, plain) => match put_plain(pool, turned, text, plain, dots) {
                Stretch::NoRoom => {
                    return Err(NoRoom);
                }
                Stretch::Last(closed) => {
                    return Ok(closed);
                }
                Stretch::More(after, begun) => {
                    next = after;
                    start = begun;
                }
            },
        }
    }
}

// The raw descriptor of a class name. Most have no `;`, and are one piece.
fn put_raw_name(
    pool: &mut [u8],
    at: usize,
    name: &[u8],
    classes: &[ClassRow],
    index: &[u16],
) -> Result<usize, NoRoom>
    requires { Indexed classes.now pool.old index.now at }
    ensures { let cs = read_back classes.now pool.old in
        WroteBy result pool.old at (turn (back cs) (class_piece true name.now)) pool.new }
{
    let Some(_) = first_place(name, b';') else {
        return put_raw_piece(pool, at, name, true, classes, index);
    };
    put_raw_pieces(pool, at, name, true, classes, index)
}

// The raw descriptor of a type without its `[]`s.
fn put_raw_base(
    pool: &mut [u8],
    at: usize,
    text: &[u8],
    base: Base,
    classes: &[ClassRow],
    index: &[u16],
) -> Result<usize, NoRoom>
    requires { (base ≡ base_of text.now) × Indexed classes.now pool.old index.now at }
    ensures { let cs = read_back classes.now pool.old in
        WroteBy result pool.old at (turn (back cs) (base_bytes base text.now)) pool.new }
{
    match base {
        Base::Letter(letter) => put_bytes(pool, at, letter, 1),
        Base::Kept => {
            let end = text.len() - 1;
            put_raw_pieces(pool, at, &text[1..end], false, classes, index)
        }
        Base::Named => put_raw_name(pool, at, text, classes, index),
    }
}

// The raw descriptor of a display type, written at a place behind the descriptors of all classes.
pub fn put_raw_type(
    pool: &mut [u8],
    at: usize,
    text: &[u8],
    classes: &[ClassRow],
    index: &[u16],
) -> Result<usize, NoRoom>
    requires { Indexed classes.now pool.old index.now at }
    ensures { let cs = read_back classes.now pool.old in
        WroteBy result pool.old at (raw_type_of cs text.now) pool.new }
{
    let shape = type_shape(text);
    let start = shape.start;
    let end = shape.end;
    let base = shape.base;
    let after = put_bytes(pool, at, b'[', shape.brackets)?;
    // an answer that is handed on is copied from between two words, and that copy is waited for; its number alone is not
    let ended = put_raw_base(pool, after, &text[start..end], base, classes, index)?;
    Ok(ended)
}
