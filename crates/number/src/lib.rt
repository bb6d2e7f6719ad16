// Numbers and ranges of line numbers, as document 01 "Method" has them.
#![tactic(auto)]

mod range;
mod read;

pub use range::{LeadingRange, TrailingRange, leading_range, trailing_range};
pub use read::read_number;
