// Whether a text is UTF-8. Runs of ASCII go by blocks, most characters of three octets at one go.
ghost use Rattle.std.specs.Prelude.{◌≡◌, true, ◌≤◌, length, drop};
ghost use Rattle.text_utf8.specs.Utf8.{sequence_of, pieces, check_from, check_of, is_utf8};
ghost use Rattle.ground.specs.Choice.{within};
ghost use Rattle.text_utf8.specs.Inner.Runs.{Three, good_length};

use crate::ascii::{ascii_blocks, ascii_end};
use crate::sequence::{Sequence, sequence_at};

// Where a text breaks first, and the length of the longest start of a character there, 0 where the text ends in it.
#[derive(Clone, Copy)]
pub struct Broken {
    pub at: usize,
    pub length: usize,
}

// Whether a byte may be any but the first of a character.
fn is_tail(b: u8) -> bool
    ensures { result ≡ within 0x80 0xBF b }
{
    if b < 0x80 {
        return false;
    }
    b <= 0xBF
}

// Whether three octets stand at a place whose first one allows every second one (RFC 3629, section 4, `%xE1-EC 2( UTF8-tail )`): most
// characters of three octets. Promised is only what passing them needs.
fn is_three(s: &[u8], at: usize) -> bool
    requires { at ≤ length s.now }
    ensures { result ≡ true → Three s.now at }
{
    if s.len() - at < 3 {
        return false;
    }
    if s[at] < 0xE1 {
        return false;
    }
    if 0xEC < s[at] {
        return false;
    }
    if is_tail(s[at + 1]) {
        return is_tail(s[at + 2]);
    }
    false
}

// How many bytes the character at a place takes, 0 where there is none.
fn good_length(s: &[u8], at: usize) -> usize
    requires { at ≤ length s.now }
    ensures { result ≡ good_length (sequence_of (drop at s.now)) }
{
    if is_three(s, at) {
        return 3;
    }
    match sequence_at(s, at) {
        Sequence::End => 0,
        Sequence::Good { code: _, length } => length,
        Sequence::Bad { length: _ } => 0,
    }
}

// The answer where no character stands at a place.
fn bad_at(s: &[u8], at: usize) -> Result<(), Broken>
    requires { good_length (sequence_of (drop at s.now)) ≡ 0 }
    ensures { result ≡ check_from at (pieces (drop at s.now)) }
{
    match sequence_at(s, at) {
        Sequence::End => Ok(()),
        Sequence::Good { code: _, length: _ } => Ok(()),
        Sequence::Bad { length } => Err(Broken { at, length }),
    }
}

// Whether a text is UTF-8, and if not, where and how it breaks first.
pub fn check_text(s: &[u8]) -> Result<(), Broken>
    ensures { result ≡ check_of s.now }
{
    let mut at = ascii_blocks(s, 0, 256);
    while at < s.len() {
        if s[at] < 0x80 {
            at = ascii_end(s, at + 1);
            continue;
        }
        let length = good_length(s, at);
        if length == 0 {
            return bad_at(s, at);
        }
        at += length;
        continue;
    }
    Ok(())
}

// Whether a whole text is UTF-8.
pub fn is_utf8(s: &[u8]) -> bool
    ensures { result ≡ is_utf8 s.now }
{
    check_text(s).is_ok()
}
