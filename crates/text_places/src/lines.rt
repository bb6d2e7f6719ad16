// Lines of a text.
ghost use Rattle.std.specs.Prelude.{◌≡◌, ◌+◌, ◌≤◌, ◌<◌, length, drop};
ghost use Rattle.text_places.specs.Lines.{cr_end};
ghost use Rattle.text_places.specs.Inner.NextLine.{next_line, NextStart, to_lf};

use crate::blocks::after_blocks;

// A line without its LF and without all CR at its end: where it starts, where it ends, and where the following one starts.
#[derive(Clone, Copy)]
pub struct NextLine {
    pub start: usize,
    pub end: usize,
    pub next: usize,
}

// The place of the first LF from a place on, or the end of the text where there is none.
fn lf_from(s: &[u8], from: usize) -> usize
    requires { from ≤ length s.now }
    ensures { result ≡ from + to_lf (drop from s.now) }
{
    // no block is asked where it stands second, as in a text of lines of one byte
    if 1 < s.len() - from {
        if s[from] == b'\n' {
            return from;
        }
        if s[from + 1] == b'\n' {
            return from + 1;
        }
    }
    let mut at = after_blocks(s, from, b'\n');
    while at < s.len() {
        if s[at] == b'\n' {
            return at;
        }
        at += 1;
    }
    at
}

// Where the line behind the one at a place starts.
pub fn next_start(s: &[u8], at: usize) -> usize
    requires { at < length s.now }
    ensures { NextStart s.now at result }
{
    let lf = lf_from(s, at);
    if lf < s.len() {
        return lf + 1;
    }
    lf
}

// The length of a line without all CR at its end.
fn cr_end(l: &[u8]) -> usize
    ensures { result ≡ cr_end l.now }
{
    let mut end = l.len();
    while 0 < end {
        let at = end - 1;
        if l[at] != b'\r' {
            return end;
        }
        end = at;
    }
    end
}

// The line that starts at a place of a text.
pub fn next_line(s: &[u8], at: usize) -> Option<NextLine>
    ensures { result ≡ next_line s.now at }
{
    if s.len() <= at {
        return None;
    }
    let lf = lf_from(s, at);
    let length = cr_end(&s[at..lf]);
    if lf < s.len() {
        return Some(NextLine {
            start: at,
            end: at + length,
            next: lf + 1,
        });
    }
    Some(NextLine {
        start: at,
        end: at + length,
        next: lf,
    })
}
