// The parts of a class line and of a member line: both sides of the arrow, a field, a method. Every public function but those that only
// move places takes any bytes; `method_parts` is told where their first `(` stands.
#![tactic(auto)]

mod arguments;
mod arrow;
mod field;
mod method;
mod signature;

pub use arguments::{NextArgument, next_argument};
pub use arrow::{Sides, class_sides, split_arrow};
pub use field::{Field, field_parts};
pub use method::{LineRange, Method, method_parts, shifted_method};
pub use signature::{Qualified, name_span};
