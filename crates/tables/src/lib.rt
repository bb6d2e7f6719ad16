// Tables: the texts that rows name, the check for refusal 14, and the last row with a descriptor.
#![tactic(auto)]

mod check;
mod search;
mod texts;

pub use check::{Malformed, Used, used_of, well_formed};
pub use search::{Side, last_with_display, last_with_raw, text_on};
pub use texts::{lesser, text_in};
