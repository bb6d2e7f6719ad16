// Members: the display names of fields and methods, and the display lines of methods. Every function takes any tables.
#![tactic(auto)]

mod names;
mod rows;

pub use names::{MemberLine, MemberName, display_field_name, display_line, display_method_name};
pub use rows::{
    Asked, Sought, display_of, first_sought, is_answer, is_method_asked, is_sought, member_row,
};
