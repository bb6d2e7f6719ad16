// Tree files: what their rule speaks of, and what the search for a signature answers. The rule stands in specs/; this crate
// has no function.
#![tactic(auto)]

// The numbers at the head of a tree file: how many node rows, token rows, name rows and name bytes there are.
#[derive(Clone, Copy)]
pub struct TreeCounts {
    pub nodes: u32,
    pub tokens: u32,
    pub names: u32,
    pub bytes: u32,
}

// A token. Names go by their number among the name rows.
#[derive(Clone, Copy)]
pub enum Token {
    // Kind 0: its two numbers are kept and not read.
    Other { a: u32, b: u32 },
    MemberName { raw: u32, display: u32 },
    Descriptor { raw: u32, display: u32 },
    SourceLine { raw: u32, display: u32 },
}

// Whose member a node names: the class given, or that of a descriptor, by the number of its token.
#[derive(Clone, Copy)]
pub enum Owner {
    Given,
    At(usize),
}

// The member that a node names, by the numbers of two of its tokens.
#[derive(Clone, Copy)]
pub struct NodeSignature {
    pub member: usize,
    pub descriptor: usize,
    pub owner: Owner,
}
