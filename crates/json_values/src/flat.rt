// Values that nest nothing: literal names, numbers and strings (RFC 8259, section 3).
ghost use Rattle.std.specs.Prelude.{◌≤◌, length, drop};
ghost use Rattle.json_grammar.specs.Reader.{past_word, flat_of};
ghost use Rattle.json_string.specs.Inner.Means.{Means};

use crate::number::number_at;
use json_string::string_end;

// A literal name.
fn word_at(s: &[u8], at: usize, word: &[u8]) -> Option<usize>
    requires { at ≤ length s.now }
    ensures { Means s.now result (past_word word.now (drop at s.now)) }
{
    for i in 0..word.len() {
        if s.len() - at <= i {
            return None;
        }
        if s[at + i] != word[i] {
            return None;
        }
    }
    Some(at + word.len())
}

// A value that nests nothing.
pub fn flat_at(s: &[u8], at: usize) -> Option<usize>
    requires { at ≤ length s.now }
    ensures { Means s.now result (flat_of (drop at s.now)) }
{
    if s.len() <= at {
        return None;
    }
    let b = s[at];
    if b == b'"' {
        return string_end(s, at + 1);
    }
    if b == b'f' {
        return word_at(s, at, b"false");
    }
    if b == b'n' {
        return word_at(s, at, b"null");
    }
    if b == b't' {
        return word_at(s, at, b"true");
    }
    number_at(s, at)
}
