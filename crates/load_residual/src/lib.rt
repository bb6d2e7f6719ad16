// The signatures that comments give.
#![tactic(auto)]

mod residual;

pub use residual::{Looked, Passed, Residual, gives_signature, residual_after};
