// Members that nodes name: the row whose name is shown, and the method whose lines are meant. Functions require that the tables and the
// tree file have passed their checks, that both indexes are made, and that notes about the names of the tree stand in the output.
#![tactic(auto)]

mod lines;
mod member;
mod node;

pub use lines::context_line;
pub use member::MemberNote;
pub use node::{NodeNote, node_note};
