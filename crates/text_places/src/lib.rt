// Places of bytes in a text, its parts and its lines, and whether two texts are the same. Every function takes any bytes but `shifted`,
// which moves a part.
#![tactic(auto)]

mod blocks;
mod find;
mod lines;
mod numbers;
mod same;
mod spans;

pub use blocks::marked;
pub use find::{first_byte, first_pair, last_byte, same_bytes};
pub use lines::{NextLine, next_line, next_start};
pub use numbers::bit_number;
pub use same::{also_differs, same_text};
pub use spans::{Span, shifted};
