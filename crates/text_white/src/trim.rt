// White space at the ends of a text and in it.
ghost use Rattle.std.specs.Prelude.{◌≡◌, true, drop};
ghost use Rattle.text_utf8.specs.declared.sequence.Sequence.TheVariants.{Good};
ghost use Rattle.text_utf8.specs.Utf8.{sequence_of};
ghost use Rattle.text_white.specs.Trim.{trim_start, trim_end, trim_both, after_marks, starts_white, first_white, last_white};
ghost use Rattle.text_white.specs.Inner.Before.{white_length, Before};

use crate::inks::{is_ink, past_ink};
use crate::white::is_white;
use text_places::Span;
use text_utf8::{Sequence, sequence_at};

// Whether a white space character stands at a place.
pub fn white_at(s: &[u8], at: usize) -> bool
    ensures { result ≡ starts_white (drop at s.now) }
{
    if s.len() <= at {
        return false;
    }
    if is_ink(s[at]) {
        return false;
    }
    if white_length(s, at) == 0 {
        return false;
    }
    true
}

// Where a text starts without the white space at its start.
#[tactic(auto, using(crate::proofs::Starting::starting))]
pub fn trim_start(s: &[u8]) -> usize
    ensures { result ≡ trim_start s.now }
{
    let mut at = 0;
    while at < s.len() {
        if is_ink(s[at]) {
            return at;
        }
        if s[at] == b' ' {
            at += 1;
            continue;
        }
        let length = white_length(s, at);
        if length == 0 {
            return at;
        }
        at += length;
    }
    at
}

// Where a text starts without every leading U+FEFF.
pub fn after_marks(s: &[u8]) -> usize
    ensures { result ≡ after_marks s.now }
{
    let mut at = 0;
    while at < s.len() {
        match sequence_at(s, at) {
            Sequence::End => {
                return at;
            }
            Sequence::Good { code, length } => {
                if code == 0xFEFF {
                    at += length;
                    continue;
                }
                return at;
            }
            Sequence::Bad { length: _ } => {
                return at;
            }
        }
    }
    at
}

// Whether U+3000 stands at a place: of the white space that is not ASCII the one that texts have, and the last that the table has. Promised
// is only what passing it needs.
pub fn is_wide(s: &[u8], at: usize) -> bool
    ensures { result ≡ true → sequence_of (drop at s.now) ≡ Good 0x3000 3 }
{
    if s.len() < 3 {
        return false;
    }
    if s.len() - 3 < at {
        return false;
    }
    if s[at] != 0xE3 {
        return false;
    }
    if s[at + 1] != 0x80 {
        return false;
    }
    s[at + 2] == 0x80
}

// The length of the white space character at a place, 0 where there is none.
pub fn white_length(s: &[u8], at: usize) -> usize
    ensures { result ≡ white_length (drop at s.now) }
{
    if is_wide(s, at) {
        return 3;
    }
    white_read(s, at)
}

// The same, by the code point that stands there.
fn white_read(s: &[u8], at: usize) -> usize
    ensures { result ≡ white_length (drop at s.now) }
{
    match sequence_at(s, at) {
        Sequence::End => 0,
        Sequence::Good { code, length } => {
            if is_white(code) {
                return length;
            }
            0
        }
        Sequence::Bad { length: _ } => 0,
    }
}

// The length of the white space character that ends at `end`, 0 where there is none.
fn white_before(s: &[u8], end: usize) -> usize
    ensures { Before s.now end result }
{
    let mut length = 1;
    while length <= 4 {
        if end < length {
            return 0;
        }
        if white_length(s, end - length) == length {
            return length;
        }
        length += 1;
    }
    0
}

// Where a text ends without the white space at its end.
pub fn trim_end(s: &[u8]) -> usize
    ensures { result ≡ trim_end s.now }
{
    let mut end = s.len();
    while 0 < end {
        let last = end - 1;
        if is_ink(s[last]) {
            return end;
        }
        if s[last] == b' ' {
            end = last;
            continue;
        }
        let length = white_before(s, end);
        if length == 0 {
            return end;
        }
        end -= length;
    }
    end
}

// Where a text starts and ends without the white space at both ends.
pub fn trim_both(s: &[u8]) -> Span
    ensures { result ≡ trim_both s.now }
{
    // many texts have nothing to trim: two bytes tell. What is asked here is so little that the compiler puts it where it is called.
    let length = s.len();
    if 0 < length {
        if is_ink(s[length - 1]) {
            if is_ink(s[0]) {
                return Span {
                    start: 0,
                    end: length,
                };
            }
        }
    }
    // made anew of its two numbers: a slice that was just made is waited for where it is handed on whole
    trim_ends(&s[..])
}

// The same, for texts that mostly have something to trim, as lines have at their start.
pub fn trim_ends(s: &[u8]) -> Span
    ensures { result ≡ trim_both s.now }
{
    let start = trim_start(s);
    if start < s.len() {
        let last = s.len() - 1;
        if is_ink(s[last]) {
            let end = s.len();
            return Span { start, end };
        }
    }
    let length = trim_end(&s[start..]);
    Span {
        start,
        end: start + length,
    }
}

// The place of the first white space character.
pub fn first_white(s: &[u8]) -> Option<usize>
    ensures { result ≡ first_white s.now }
{
    let mut at = past_ink(s);
    while at < s.len() {
        if is_ink(s[at]) {
            // up to two bytes a turn: what follows a loop of one the compiler counts along with it
            let next = at + 1;
            if next < s.len() {
                if is_ink(s[next]) {
                    at = next + 1;
                    continue;
                }
            }
            at = next;
            continue;
        }
        if white_at(s, at) {
            return Some(at);
        }
        at += 1;
        continue;
    }
    None
}

// The place of the last white space character.
pub fn last_white(s: &[u8]) -> Option<usize>
    ensures { result ≡ last_white s.now }
{
    let mut end = s.len();
    while 0 < end {
        let at = end - 1;
        if is_ink(s[at]) {
            end = at;
            continue;
        }
        if white_at(s, at) {
            return Some(at);
        }
        end -= 1;
        continue;
    }
    None
}
