// Class names: what a raw descriptor shows as, and what a display descriptor is turned back to. Every function takes any tables.
#![tactic(auto)]

mod classes;

pub use classes::{display_class_name, mapped_class_name, raw_class_name};
