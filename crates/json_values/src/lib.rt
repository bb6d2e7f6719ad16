// JSON: a reader of RFC 8259 by places in a text: white space, numbers, literal names, and values, objects and arrays, which hold
// values again. Strings stand in `json_string`. Every function takes any bytes and ends; some ask for a place inside the text.
#![tactic(auto)]

mod flat;
mod number;
mod space;
mod value;

pub use space::{skip_space, structural_at};
pub use value::{Member, member_at};
