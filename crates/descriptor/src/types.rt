// Types, and what their descriptors are made of.
ghost use Rattle.std.specs.Prelude.{◌≡◌};
ghost use Rattle.descriptor.specs.Types.{stripped_of, word_letter, kept_text, base_of, shape_of};

use text_places::same_bytes;
use text_white::trim_both;

// Where a type ends without the `[]`s at its end, and how many they are.
#[derive(Clone, Copy)]
pub struct Stripped {
    pub end: usize,
    pub brackets: usize,
}

// What a type is without its `[]`s.
#[derive(Clone, Copy)]
pub enum Base {
    // One of the nine Java words, by its letter.
    Letter(u8),
    // `L..;`, which is kept.
    Kept,
    // A class name.
    Named,
}

// A type: how many `[]`s it has, what the rest is, and where that stands.
#[derive(Clone, Copy)]
pub struct TypeShape {
    pub brackets: usize,
    pub start: usize,
    pub end: usize,
    pub base: Base,
}

// Each `[]` at the end of a text goes.
fn without_brackets(s: &[u8]) -> Stripped
    ensures { result ≡ stripped_of s.now }
{
    let mut end = s.len();
    let mut brackets = 0;
    while 2 <= end {
        if s[end - 2] != b'[' {
            return Stripped { end, brackets };
        }
        if s[end - 1] != b']' {
            return Stripped { end, brackets };
        }
        end -= 2;
        brackets += 1;
    }
    Stripped { end, brackets }
}

// The letter of one of the nine words, 0 where it is none.
fn word_letter(s: &[u8]) -> u8
    ensures { result ≡ word_letter s.now }
{
    if same_bytes(s, b"void") {
        return b'V';
    }
    if same_bytes(s, b"boolean") {
        return b'Z';
    }
    if same_bytes(s, b"byte") {
        return b'B';
    }
    if same_bytes(s, b"char") {
        return b'C';
    }
    if same_bytes(s, b"short") {
        return b'S';
    }
    if same_bytes(s, b"int") {
        return b'I';
    }
    if same_bytes(s, b"long") {
        return b'J';
    }
    if same_bytes(s, b"float") {
        return b'F';
    }
    if same_bytes(s, b"double") {
        return b'D';
    }
    0
}

// Whether a text starts with `L` and ends with `;`.
pub fn is_kept(s: &[u8]) -> bool
    ensures { result ≡ kept_text s.now }
{
    if s.len() == 0 {
        return false;
    }
    if s[0] != b'L' {
        return false;
    }
    s[s.len() - 1] == b';'
}

fn base_kind(s: &[u8]) -> Base
    ensures { result ≡ base_of s.now }
{
    let letter = word_letter(s);
    if letter != 0 {
        return Base::Letter(letter);
    }
    if is_kept(s) {
        return Base::Kept;
    }
    Base::Named
}

// What a type is made of.
pub fn type_shape(s: &[u8]) -> TypeShape
    ensures { result ≡ shape_of s.now }
{
    let part = trim_both(s);
    let start = part.start;
    let whole = part.end;
    let cut = without_brackets(&s[start..whole]);
    let end = start + cut.end;
    TypeShape {
        brackets: cut.brackets,
        start,
        end,
        base: base_kind(&s[start..end]),
    }
}
