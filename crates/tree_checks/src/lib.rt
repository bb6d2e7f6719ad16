// The checks of a tree file, in document 01's order, for refusal 12. `well_formed_tree` takes any bytes; a check by itself requires that
// the checks which it rests on have passed.
#![tactic(auto)]

mod names;
mod nodes;
mod tokens;
mod whole;

pub use names::{faulty_name, faulty_text};
pub use nodes::{counts_sum, faulty_parent, length_agrees, root_fine};
pub use tokens::faulty_token;
pub use whole::well_formed_tree;
