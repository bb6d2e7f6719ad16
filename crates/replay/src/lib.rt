// What programs share that replay cases from standard input. There a line `= NAME` opens a case; its document is what stands between that
// line and the next of its kind, or the end, without the LF before it.
#![tactic(auto)]

mod documents;
mod each;
mod hex;
mod say;

pub use documents::{case_from, document_end};
pub use each::each_case;
pub use hex::read_bytes;
pub use say::{case_name, decimal, words};
