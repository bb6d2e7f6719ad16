// A text against a name that is looked for, which may stand nowhere as a descriptor: `L`, the name, `;`.
ghost use Rattle.std.specs.Prelude.{◌≡◌, ◌<◌, ◌+◌, leb, length, get_or};
ghost use Rattle.text_places.specs.Places.{same};
ghost use Rattle.table_pool.specs.Inner.Named.{class_piece};
ghost use Rattle.table_index.specs.Inner.Order.{compared, Weighing};
ghost use Rattle.table_index.specs.Inner.Forms.{spelled};

use crate::blocks::alike_up_to;
use crate::texts::compare_texts;
use std::cmp::Ordering;
use table_pool::stored_byte;
use text_places::same_text;

// What a name stands for.
#[derive(Clone, Copy)]
pub enum NameForm {
    // Itself.
    Whole,
    // The class piece with it, its dots as slashes or as they are.
    Piece(bool),
}

// Whether the piece has ended at a place.
fn piece_ends(name: &[u8], i: usize) -> bool
    ensures { result ≡ leb (length name.now + 2) i }
{
    if i < 2 {
        return false;
    }
    name.len() <= i - 2
}

fn piece_byte(name: &[u8], dots: bool, i: usize) -> u8
    requires { i < length name.now + 2 }
    ensures { result ≡ get_or (class_piece dots name.now) i 0 }
{
    if i == 0 {
        return b'L';
    }
    let k = i - 1;
    if k < name.len() {
        return stored_byte(name[k], dots);
    }
    b';'
}

// So far a text and the piece are alike, by whole blocks.
fn past_alike(text: &[u8], name: &[u8], dots: bool) -> usize
    ensures { Weighing text.now (class_piece dots name.now) result }
{
    if text.len() == 0 {
        return 0;
    }
    if text[0] != b'L' {
        return 0;
    }
    let past = alike_up_to(text, 1, name, dots);
    past + 1
}

fn compare_piece(text: &[u8], name: &[u8], dots: bool) -> Ordering
    ensures { result ≡ compared text.now (class_piece dots name.now) }
{
    let mut i = past_alike(text, name, dots);
    while i < text.len() {
        if piece_ends(name, i) {
            return Ordering::Greater;
        }
        let byte = piece_byte(name, dots, i);
        if text[i] < byte {
            return Ordering::Less;
        }
        if byte < text[i] {
            return Ordering::Greater;
        }
        i += 1;
    }
    if piece_ends(name, i) {
        return Ordering::Equal;
    }
    Ordering::Less
}

pub fn compare_named(text: &[u8], name: &[u8], form: NameForm) -> Ordering
    ensures { result ≡ compared text.now (spelled form name.now) }
{
    match form {
        NameForm::Whole => compare_texts(text, name),
        NameForm::Piece(dots) => compare_piece(text, name, dots),
    }
}

// Whether a text is the piece `L`, name, `;`. Lengths are compared first, and blocks before bytes.
fn is_piece(text: &[u8], name: &[u8], dots: bool) -> bool
    ensures { result ≡ same text.now (class_piece dots name.now) }
{
    if text.len() < 2 {
        return false;
    }
    if text.len() - 2 != name.len() {
        return false;
    }
    let mut k = alike_up_to(text, 1, name, dots);
    while k < name.len() {
        if text[1 + k] != stored_byte(name[k], dots) {
            return false;
        }
        k += 1;
    }
    if text[0] != b'L' {
        return false;
    }
    let last = name.len() + 1;
    if text[last] != b';' {
        return false;
    }
    true
}

pub fn is_named(text: &[u8], name: &[u8], form: NameForm) -> bool
    ensures { result ≡ same text.now (spelled form name.now) }
{
    match form {
        NameForm::Whole => same_text(text, name),
        NameForm::Piece(dots) => is_piece(text, name, dots),
    }
}
