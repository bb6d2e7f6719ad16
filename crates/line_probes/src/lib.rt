// C functions over a line of a mapping file, for differential runs and for timing. Each writes its answer as numbers.
#![tactic(auto)]

mod lines;
mod methods;

pub use lines::{clumarief_probe_argument, clumarief_probe_line_parts};
