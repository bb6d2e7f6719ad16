// What applying a mapping to a tree answers. The rule of applying stands in specs/; this crate has no function.
#![tactic(auto)]

// A tree file, and what is made of it, may have so many bytes.
pub const MOST_TREE: usize = 4194304;

// Why applying a mapping is refused.
#[derive(Clone, Copy)]
pub enum ApplyError {
    // The tables are malformed.
    Malformed,
    // The tree file is too long.
    TooLong,
    // The tree file is malformed.
    BadTree,
    // The output is shorter than needed, or too much is needed.
    NoRoom,
}
