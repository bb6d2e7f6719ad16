// Plans: what becomes of the tokens of a tree. The rows of all tokens are written into the output as they come out; of each name that is
// added a plan is noted, in the place of its row. Functions require that the tables and the tree file have passed their checks, that both
// indexes are made, and that all names are noted.
#![tactic(auto)]

mod context;
mod node;
mod nodes;
mod plan;
mod rows;
mod tokens;

pub use nodes::plan_nodes;
