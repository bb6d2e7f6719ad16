// Where the cases of a text stand.
ghost use Rattle.std.specs.Prelude.{◌≤◌, length};

use text_places::NextLine;

// Whether a line that starts at `at` opens a case.
fn opens(s: &[u8], at: usize) -> bool {
    if s.len() <= at {
        return false;
    }
    if s[at] != b'=' {
        return false;
    }
    if s.len() - at < 2 {
        return false;
    }
    s[at + 1] == b' '
}

// The first line that opens a case, from a line's start on, or the end of the text.
pub fn case_from(s: &[u8], from: usize) -> usize
    requires { from ≤ length s.now }
    ensures { (from ≤ result) × (result ≤ length s.now) }
{
    let mut at = from;
    while at < s.len() {
        if opens(s, at) {
            return at;
        }
        let Some(
            NextLine {
                start: _,
                end: _,
                next,
            },
        ) = text_places::next_line(s, at)
        else {
            return at;
        };
        at = next;
    }
    at
}

// The end of a document that starts at `start`, where the next case starts at `next`: the LF between them is not the document's.
pub fn document_end(s: &[u8], start: usize, next: usize) -> usize
    requires { (start ≤ next) × (next ≤ length s.now) }
    ensures { (start ≤ result) × (result ≤ length s.now) }
{
    if next <= start {
        return start;
    }
    if s[next - 1] == b'\n' {
        return next - 1;
    }
    next
}
