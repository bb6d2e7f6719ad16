// The lines of a method: from raw line numbers to display line numbers. Every function takes any ranges.
#![tactic(auto)]

mod lines;

pub use lines::{DisplayLine, RawLine, holds_line, translated};
