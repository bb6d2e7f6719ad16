// What a JSON string stands for: how long it is, whether it is a given text, and its bytes written into a lent slice. A string without
// escapes stands for its own bytes.
#![tactic(auto)]

mod compare;
mod length;
mod octets;
mod plain;
mod write;

pub use compare::decoded_is;
pub use length::decoded_length;
pub use plain::{plain_string, stands_for};
pub use write::{WriteError, decode_at};
