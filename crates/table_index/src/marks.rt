// The mark of a descriptor. It goes by the length and by bounded parts of the text, so that a long one is marked as fast as a short one.
ghost use Rattle.std.specs.Prelude.{◌≡◌, ◌+◌, ◌-◌, ◌≤◌, ◌<◌, length};
ghost use Rattle.table_pool.specs.Inner.Named.{slash_if, name_bytes};
ghost use Rattle.table_index.specs.Inner.Marks.{mark_count, four_at, few_bytes, mixed, mark_from, mark_of};
ghost use Rattle.table_index.specs.Inner.Forms.{spelled};

use crate::forms::NameForm;
use table_pool::stored_byte;

// How many marks there are.
pub const MARKS: usize = 8192;

// A byte of a name, with dots as slashes or as they are.
fn wide_byte(b: u8, dots: bool) -> usize
    ensures { (result ≡ slash_if dots b) × (result < 256) }
{
    stored_byte(b, dots) as usize
}

// Four bytes of a name as one number.
fn four_at(text: &[u8], at: usize, dots: bool) -> usize
    requires { at + 4 ≤ length text.now }
    ensures { (result ≡ four_at (name_bytes dots text.now) at) × (result < 4294967296) }
{
    let low = wide_byte(text[at], dots) + 256 * wide_byte(text[at + 1], dots);
    let high = wide_byte(text[at + 2], dots) + 256 * wide_byte(text[at + 3], dots);
    low + 65536 * high
}

// Of up to three bytes, all.
fn few_bytes(text: &[u8], dots: bool) -> usize
    requires { length text.now < 4 }
    ensures { (result ≡ few_bytes (name_bytes dots text.now)) × (result < 4294967296) }
{
    let length = text.len();
    if length == 0 {
        return 0;
    }
    let first = wide_byte(text[0], dots);
    let middle = wide_byte(text[length / 2], dots);
    let last = wide_byte(text[length - 1], dots);
    first + 256 * middle + 65536 * last
}

// One mark of five numbers: products that wait for none of the others.
fn mixed_mark(seed: usize, a: usize, b: usize, c: usize, d: usize) -> usize
    requires { (seed < 16384) × (a < 4294967296) × (b < 4294967296) × (c < 4294967296) × (d < 4294967296) }
    ensures { result ≡ mixed seed a b c d }
{
    let ends = a * 375761393 + d * 291746501;
    let sum = ends + b * 426508747 + c * 331804471;
    (sum + seed * 506832829) / 1048576 % MARKS
}

// The place eight bytes before another one, or the first one.
fn eight_before(place: usize) -> usize
    ensures { result ≡ place - 8 }
{
    if place < 8 {
        return 0;
    }
    place - 8
}

// The mark of a name with its dots as slashes or as they are: by its length, its first four bytes and its last twelve.
fn mark_name(name: &[u8], dots: bool) -> usize
    ensures { result ≡ mark_from 0 (name_bytes dots name.now) }
{
    let length = name.len();
    let seed = length % MARKS;
    if length < 4 {
        return mixed_mark(seed, few_bytes(name, dots), 0, 0, 0);
    }
    let last = length - 4;
    let near = eight_before(last);
    let middle = (near + last) / 2;
    mixed_mark(
        seed,
        four_at(name, 0, dots),
        four_at(name, near, dots),
        four_at(name, middle, dots),
        four_at(name, last, dots),
    )
}

fn wide(b: u8) -> usize
    ensures { (result ≡ b) × (result < 256) }
{
    b as usize
}

// As `four_at` without dots, which the compiler loads in one go.
fn plain_four(text: &[u8], at: usize) -> usize
    requires { at + 4 ≤ length text.now }
    ensures { (result ≡ four_at text.now at) × (result < 4294967296) }
{
    let low = wide(text[at]) + 256 * wide(text[at + 1]);
    let high = wide(text[at + 2]) + 256 * wide(text[at + 3]);
    low + 65536 * high
}

// The mark of a text as it is, where that of what stands before it is `start`.
pub fn mark_from(start: usize, text: &[u8]) -> usize
    requires { start < mark_count }
    ensures { result ≡ mark_from start text.now }
{
    let length = text.len();
    let seed = start + length % MARKS;
    if length < 4 {
        return mixed_mark(seed, few_bytes(text, false), 0, 0, 0);
    }
    let last = length - 4;
    let near = eight_before(last);
    let middle = (near + last) / 2;
    mixed_mark(
        seed,
        plain_four(text, 0),
        plain_four(text, near),
        plain_four(text, middle),
        plain_four(text, last),
    )
}

// The mark of a descriptor: its first and its last byte do not count, so that a class name has the mark of its piece.
pub fn mark_whole(text: &[u8]) -> usize
    ensures { result ≡ mark_of text.now }
{
    if text.len() < 2 {
        return 0;
    }
    let last = text.len() - 1;
    mark_from(0, &text[1..last])
}

// The mark of what a name stands for.
pub fn mark_of(name: &[u8], form: NameForm) -> usize
    ensures { result ≡ mark_of (spelled form name.now) }
{
    match form {
        NameForm::Whole => mark_whole(name),
        NameForm::Piece(dots) => mark_name(name, dots),
    }
}
