// Applying a mapping to a tree file.
#![tactic(auto)]

mod entry;
mod fill;

pub use entry::apply_to_smali;
