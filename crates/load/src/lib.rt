// Loading a mapping file: from its text to class rows, member rows and a pool. Every public function takes any bytes and any slices.
#![tactic(auto)]

mod entry;
mod fill;

pub use entry::{parse, parse_str};
