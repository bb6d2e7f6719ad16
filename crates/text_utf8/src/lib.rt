// UTF-8. Every function takes any bytes.
#![tactic(auto)]

mod ascii;
mod check;
mod sequence;

pub use ascii::ascii_start;
pub use check::{Broken, check_text, is_utf8};
pub use sequence::{Sequence, sequence_at};
