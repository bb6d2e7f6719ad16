// Descriptors: the shape of a type, and raw signatures settled in the pool. `type_shape` takes any bytes, `settle_signature` asks for
// places inside the pool.
#![tactic(auto)]

mod settle;
mod types;

pub use settle::settle_signature;
pub use types::{Base, TypeShape, type_shape};
