// The signature of a node of a well-formed tree file: the member that it names. Functions take the counts of the file and the numbers of
// tokens, and require that the file has passed its checks.
#![tactic(auto)]

mod signature;
mod token;

pub use signature::node_signature;
pub use token::{names_method, starts_as};
