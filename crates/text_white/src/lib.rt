// White space: which characters are, and a text without those at its ends.
//
// Every function takes any bytes. What it gives on a text that is not UTF-8 is said by its rule in specs/.
#![tactic(auto)]

mod inks;
mod trim;
mod white;

pub use trim::{
    after_marks, first_white, is_wide, last_white, trim_both, trim_end, trim_ends, trim_start,
    white_at, white_length,
};
pub use white::is_white;
