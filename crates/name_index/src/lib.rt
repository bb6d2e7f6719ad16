// An index of member rows, for whoever looks up often. It answers as looking at each row does.
#![tactic(auto)]

mod chained;
mod chains;
mod lines;

pub use chained::chained_row;
pub use chains::{MEMBER_INDEX, index_members};
pub use lines::line_by_row;
