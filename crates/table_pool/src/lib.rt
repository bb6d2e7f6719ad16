// Texts, class names and class descriptors, written into a lent pool at a place. Every public function takes any bytes; `put_copy` asks
// that the text stands before the place.
#![tactic(auto)]

mod names;
mod write;

pub use names::{put_class, put_closed, put_name, put_piece, slash_for_dot, stored_byte};
pub use write::{NoRoom, TwoTexts, put_bytes, put_copy, put_text};
