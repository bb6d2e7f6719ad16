// Many parts of one text: whether each is UTF-8, in a time that does not grow with how long they are. Parts may overlap.
#![tactic(auto)]

mod parts;
mod reach;

pub use parts::part_is_utf8;
pub use reach::{GROUPS, mark_reach};
