// The C functions that a service calls. Each takes any bytes and any slices, and writes its answer as numbers.
#![tactic(auto)]

mod applying;
mod loading;
mod members;
mod names;

pub use applying::clumarief_apply;
pub use loading::{clumarief_parse, clumarief_parse_str};
pub use members::{
    clumarief_display_field_name, clumarief_display_line, clumarief_display_method_name,
};
pub use names::{
    clumarief_display_class_name, clumarief_mapped_class_name, clumarief_raw_class_name,
};
