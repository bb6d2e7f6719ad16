// The words of a tree file: numbers, counts, rows, and the texts of names. Functions that read at a place require that what they read
// lies in the file; those that say where a stretch starts take any counts.
#![tactic(auto)]

mod layout;
mod put;
mod rows;

pub use layout::{bytes_start, counts_in, file_length, name_bytes, names_start, tokens_start};
pub use put::put_word;
pub use rows::{name_row, name_text, parent_at, token_count_at, token_row, word_at};
