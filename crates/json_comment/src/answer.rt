// The answer for a comment: its members are read once, from first to last.
ghost use Rattle.std.specs.Prelude.{◌≡◌, ◌≤◌, ◌<◌, length, drop};
ghost use Rattle.json_grammar.specs.Reader.{chars_from, member_of, value_of};
ghost use Rattle.json_values.specs.Inner.Members.{MemberMeans};
ghost use Rattle.json_comment.specs.Answer.{comment_of, residual_of};
ghost use Rattle.json_comment.specs.Inner.Steps.{head_stands, given_for, later_counts, end_of};

use json_decode::{decoded_is, stands_for};
use json_values::{Member, member_at, skip_space, structural_at};

// What stands last under a name.
#[derive(Clone, Copy)]
pub enum Stands {
    Missing,
    // A value that is no string.
    Other,
    // A string, whose first char stands at this place.
    Text(usize),
}

// What a comment that can be read says.
#[derive(Clone, Copy)]
pub struct Comment {
    pub id: Stands,
    pub signature: Stands,
}

// What the value at a place is, by its first byte.
fn value_stands(s: &[u8], value: usize) -> Stands
    requires { value < length s.now }
    ensures { result ≡ head_stands value (drop value s.now) }
{
    if s[value] == b'"' {
        return Stands::Text(value + 1);
    }
    Stands::Other
}

// What a member gives for `name`, where its own name is the string at `key`: its value, or nothing where it has another name.
fn given_for(s: &[u8], key: usize, name: &[u8], value: usize) -> Stands
    requires { value < length s.now }
    ensures { result ≡ given_for s.now key name.now value }
{
    if decoded_is(s, key, name) {
        return value_stands(s, value);
    }
    Stands::Missing
}

// What stands last: what is given later, or what stood before where that is nothing.
fn later_counts(later: Stands, before: Stands) -> Stands
    ensures { result ≡ later_counts later before }
{
    match later {
        Stands::Missing => before,
        Stands::Other => Stands::Other,
        Stands::Text(at) => Stands::Text(at),
    }
}

// What stands last under `name` once one more member is read.
fn stands_now(s: &[u8], key: usize, name: &[u8], value: usize, before: Stands) -> Stands
    requires { value < length s.now }
    ensures { result ≡ later_counts (given_for s.now key name.now value) before }
{
    later_counts(given_for(s, key, name, value), before)
}

// A member of the comment's object. That is the first of the 127 levels that are read, so that a value nests 126 at most.
fn comment_member(s: &[u8], at: usize) -> Option<Member>
    requires { at ≤ length s.now }
    ensures { MemberMeans s.now result (member_of (value_of 126) (drop at s.now)) }
{
    member_at(s, at, 126)
}

// The answer once the object is read, up to the place `end`: nothing may be left.
fn ended(s: &[u8], end: usize, id: Stands, signature: Stands) -> Option<Comment>
    ensures { result ≡ end_of (drop end s.now) id signature }
{
    if end < s.len() {
        return None;
    }
    Some(Comment { id, signature })
}

// The answer for a comment, whose text is `s`.
pub fn read_comment(s: &[u8]) -> Option<Comment>
    ensures { result ≡ comment_of s.now }
{
    let at = skip_space(s, 0);
    if s.len() <= at {
        return None;
    }
    if s[at] != b'{' {
        return None;
    }
    let mut place = skip_space(s, at + 1);
    if let Some(end) = structural_at(s, place, b'}') {
        return ended(s, end, Stands::Missing, Stands::Missing);
    }
    let mut id = Stands::Missing;
    let mut signature = Stands::Missing;
    while place < s.len() {
        let Member { value, next } = comment_member(s, place)?;
        id = stands_now(s, place + 1, b"id", value, id);
        signature = stands_now(s, place + 1, b"signature", value, signature);
        let Some(again) = structural_at(s, next, b',') else {
            let Some(end) = structural_at(s, next, b'}') else {
                return None;
            };
            return ended(s, end, id, signature);
        };
        place = again;
    }
    None
}

// Whether a string, whose first char is at `start`, says that a comment holds a residual signature.
pub fn is_residual(s: &[u8], start: usize) -> bool
    ensures { result ≡ residual_of (chars_from 0 (drop start s.now)) }
{
    stands_for(s, start, b"com.android.tools.r8.residualsignature")
}
