// Class rows and their descriptors, written while the lines of a text are read.
#![tactic(auto)]

mod entry;
mod names;
mod write;

pub use write::{Classes, ClassesError, write_classes};
