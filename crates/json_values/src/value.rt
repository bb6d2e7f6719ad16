// Values, objects and arrays (RFC 8259, sections 3 to 5). Their readers call each other; the depth allowance is passed down.
ghost use Rattle.std.specs.Prelude.{◌≡◌, ◌≤◌, ◌<◌, length, get_or, drop};
ghost use Rattle.json_grammar.specs.Reader.{member_of, enclosed_of, value_of};
ghost use Rattle.json_string.specs.Inner.Means.{Means};
ghost use Rattle.json_values.specs.Inner.Members.{MemberMeans};

use crate::flat::flat_at;
use crate::space::{skip_space, structural_at};
use json_string::string_end;

// A member: the place of its value, and where reading goes on.
#[derive(Clone, Copy)]
pub struct Member {
    pub value: usize,
    pub next: usize,
}

// A value with at most `depth` nested levels.
#[cycle(array_at_member_at_object_at_value_at)]
fn value_at(s: &[u8], at: usize, depth: usize) -> Option<usize>
    requires { at ≤ length s.now }
    ensures { Means s.now result (value_of depth (drop at s.now)) }
{
    if depth == 0 {
        return flat_at(s, at);
    }
    if s.len() <= at {
        return None;
    }
    if s[at] == b'{' {
        return object_at(s, at, depth - 1);
    }
    if s[at] == b'[' {
        return array_at(s, at, depth - 1);
    }
    flat_at(s, at)
}

// A member: a string, a colon and a value with at most `depth` nested levels.
#[cycle(array_at_member_at_object_at_value_at)]
pub fn member_at(s: &[u8], at: usize, depth: usize) -> Option<Member>
    requires { at ≤ length s.now }
    ensures { MemberMeans s.now result (member_of (value_of depth) (drop at s.now)) }
{
    if s.len() <= at {
        return None;
    }
    if s[at] != b'"' {
        return None;
    }
    let named = string_end(s, at + 1)?;
    let value = structural_at(s, named, b':')?;
    let next = value_at(s, value, depth)?;
    Some(Member { value, next })
}

// An object whose opening brace stands at `at`; its values have at most `depth` nested levels.
#[cycle(array_at_member_at_object_at_value_at)]
fn object_at(s: &[u8], at: usize, depth: usize) -> Option<usize>
    requires { (at < length s.now) × (get_or s.now at 0 ≡ 0x7B) }
    ensures { Means s.now result (enclosed_of (member_of (value_of depth)) 0x7B 0x7D (drop at s.now)) }
{
    let mut place = skip_space(s, at + 1);
    if let Some(end) = structural_at(s, place, b'}') {
        return Some(end);
    }
    while place < s.len() {
        let Member { value: _, next } = member_at(s, place, depth)?;
        let Some(again) = structural_at(s, next, b',') else {
            return structural_at(s, next, b'}');
        };
        place = again;
    }
    None
}

// An array whose opening bracket stands at `at`; its values have at most `depth` nested levels.
#[cycle(array_at_member_at_object_at_value_at)]
fn array_at(s: &[u8], at: usize, depth: usize) -> Option<usize>
    requires { (at < length s.now) × (get_or s.now at 0 ≡ 0x5B) }
    ensures { Means s.now result (enclosed_of (value_of depth) 0x5B 0x5D (drop at s.now)) }
{
    let mut place = skip_space(s, at + 1);
    if let Some(end) = structural_at(s, place, b']') {
        return Some(end);
    }
    while place < s.len() {
        let next = value_at(s, place, depth)?;
        let Some(again) = structural_at(s, next, b',') else {
            return structural_at(s, next, b']');
        };
        place = again;
    }
    None
}
