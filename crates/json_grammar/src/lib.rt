// JSON as RFC 8259 has it: its grammar, a reader on lists, and that the two agree. There is no code here: the other crates of
// this floor are held to it.
#![tactic(auto)]
