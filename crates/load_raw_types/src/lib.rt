// Raw descriptors of display types, written into a lent pool behind the descriptors of the classes.
#![tactic(auto)]

mod types;

pub use types::put_raw_type;
