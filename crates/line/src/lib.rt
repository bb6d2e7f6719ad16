// One line of a mapping file: what it is, and the places of its parts. Every public function takes any bytes.
#![tactic(auto)]

mod line;

pub use line::{Line, Refusal, read_line, refusal_number};
