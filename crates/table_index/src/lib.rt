// An index of class rows by one of their descriptors. A search asks only rows with the mark of what is looked for, and halves these, so
// that no text makes it slow.
#![tactic(auto)]

mod blocks;
mod forms;
mod group;
mod insert;
mod lay;
mod make;
mod marks;
mod parts;
mod rows;
mod search;
mod texts;

pub use forms::NameForm;
pub use make::index_classes;
pub use marks::mark_from;
pub use parts::INDEX;
pub use search::{last_named, last_raw};
