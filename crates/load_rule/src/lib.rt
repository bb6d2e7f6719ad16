// What loading a mapping answers. The rule of loading stands in specs/; this crate has no function.
#![tactic(auto)]

// A text may have so many bytes.
pub const MOST_TEXT: usize = 1048576;

// What becomes of one line.
#[derive(Clone, Copy)]
pub enum Fate {
    Blank,
    // A comment whose signature replaces one.
    Applied,
    Idle,
    Class,
    Field,
    Method,
    // A method whose display range has a second part that does not read.
    Short,
    // A line for which the text is refused.
    Faulty,
}

// What became of the lines of a text: how many had each fate.
#[derive(Clone, Copy)]
pub struct Fates {
    pub lines: u32,
    pub blank: u32,
    pub applied: u32,
    pub idle: u32,
    pub class: u32,
    pub field: u32,
    // Short ones too.
    pub method: u32,
    pub short: u32,
}

// The lines of a text: what became of them, or the first faulty one.
#[derive(Clone, Copy)]
pub struct Fault {
    pub number: u32,
    pub line: u32,
}

#[derive(Clone, Copy)]
pub struct Loaded {
    pub fates: Fates,
    pub names: u32,
}

// Why a text is refused.
#[derive(Clone, Copy)]
pub enum LoadError {
    TooLong,
    // How many bytes before it are valid, and the length of what is not.
    NotUtf8 { valid: u32, length: u32 },
    Faulty(Fault),
    NoClasses,
    FewClassRows,
    FewMemberRows,
    ShortPool,
}
