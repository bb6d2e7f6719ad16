// Class pieces of descriptors that are known: the first one, a descriptor with all of them shown, and notes about the names of a tree.
#![tactic(auto)]

mod ahead;
mod groups;
mod known;
mod long;
mod note;
mod notes;
mod rows;
mod show;
mod within;

pub use known::{KnownPiece, first_known};
pub use notes::note_names;
pub use rows::raw_length;
pub use show::put_shown;
