// The texts of a member, written into the pool behind the descriptors of all classes.
#![tactic(auto)]

mod descriptors;
mod texts;

pub use texts::{Body, MemberLine, Places, write_texts};
