// The output of applying a mapping to a tree, written over what was noted in it.
#![tactic(auto)]

mod names;
mod output;
mod plan;
mod rows;

pub use output::write_output;
