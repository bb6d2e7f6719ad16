// Strings of JSON (RFC 8259, section 7) by places in a text. Every function takes any bytes and any place, and ends. Readers give the place
// behind what they read, or none.
#![tactic(auto)]

mod plain;
mod string;

pub use plain::plain_end;
pub use string::{Piece, piece_at, string_end};
