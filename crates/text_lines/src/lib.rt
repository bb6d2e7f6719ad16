// A reader of lines: a text and a place in it, kept together. Every function takes any text and any place.
#![tactic(auto)]

mod reader;

pub use reader::{Lines, line, lines_of, moved};
