// Member rows, written with their texts while the lines of a text are read.
#![tactic(auto)]

mod enter;
mod fill;
mod passed;
mod role;
mod row;

pub use fill::{FillError, Filled, write_members};
