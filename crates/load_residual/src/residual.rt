// The signatures that comments give.
ghost use Rattle.std.specs.Prelude.{◌≡◌, ◌≤◌, ◌<◌, length};
ghost use Rattle.ground.specs.Put.{between};
ghost use Rattle.line.specs.declared.line.Line.TheVariants as kinds;
ghost use Rattle.line.specs.Kinds.{line_of};
ghost use Rattle.load_rule.specs.Comments.{signature_of, signature_at};
ghost use Rattle.load_rule.specs.Loading.{most_text};
ghost use Rattle.ground.specs.Look.{is_known};
ghost use Rattle.load_residual.specs.Inner.Residuals.{place_look, is_given, Gives, heeded, hash_gives};
ghost use Rattle.load_residual.specs.Inner.Openings.{OpensBy};
ghost use Rattle.load_residual.specs.Inner.Passes.{passed_of, Looks};

use json_comment::{Comment, Stands, is_residual, read_comment};
use text_places::{NextLine, first_byte, next_line};
use text_white::{is_wide, trim_both, trim_end, white_length};

// A string in a text: its JSON runs from `start` to `end`, and its first char stands at the place `string` of the JSON.
#[derive(Clone, Copy)]
pub struct Residual {
    pub start: usize,
    pub end: usize,
    pub string: usize,
}

// Blank lines and comments that stand behind a class line or a member line: how many bytes they are in all, how many of them are blank,
// how many give a signature that counts, and how many don't.
#[derive(Clone, Copy)]
pub struct Passed {
    pub bytes: usize,
    pub blank: u32,
    pub applied: u32,
    pub idle: u32,
}

// What the lines behind a line give, and those that were read for it: who goes over the lines need not read these again.
#[derive(Clone, Copy)]
pub struct Looked {
    pub residual: Option<Residual>,
    pub passed: Passed,
}

// What a line opens with.
#[derive(Clone, Copy)]
pub enum Opening {
    // Nothing: it is blank. The place where the next line starts.
    Blank(usize),
    // A comment: the place of its `#`.
    Comment(usize),
    Other,
}

// The place of the string under `signature`, if there is one and the id says that it counts.
fn string_of(json: &[u8]) -> Option<usize>
    ensures { place_look json.now result ≡ signature_of json.now }
{
    match read_comment(json) {
        None => None,
        Some(Comment { id, signature }) => match id {
            Stands::Missing => None,
            Stands::Other => None,
            Stands::Text(named) => {
                if is_residual(json, named) {
                    return match signature {
                        Stands::Missing => None,
                        Stands::Other => None,
                        Stands::Text(string) => Some(string),
                    };
                }
                None
            }
        },
    }
}

// The signature that a comment's JSON gives, which runs from `start` to `end`.
fn signature_between(text: &[u8], start: usize, end: usize) -> Option<Residual>
    requires { (start ≤ «end») × («end» ≤ length text.now) }
    ensures { Gives text.now result (signature_of (between text.now start «end»)) }
{
    let string = string_of(&text[start..end])?;
    Some(Residual { start, end, string })
}

// The signature that a comment gives, whose `{` stands at `brace`.
fn signature_at(line: &[u8], brace: Option<usize>) -> Option<Residual>
    requires { line_of line.now ≡ kinds.Comment brace }
    ensures { Gives line.now result (signature_at line.now brace) }
{
    let start = brace?;
    let part = trim_both(line);
    signature_between(line, start, part.end)
}

// Whether there is a signature.
fn is_given(residual: Option<Residual>) -> bool
    ensures { result ≡ is_given residual }
{
    match residual {
        Some(
            Residual {
                start: _,
                end: _,
                string: _,
            },
        ) => true,
        None => false,
    }
}

// Whether a comment gives a signature.
pub fn gives_signature(line: &[u8], brace: Option<usize>) -> bool
    requires { line_of line.now ≡ kinds.Comment brace }
    ensures { result ≡ is_known (signature_at line.now brace) }
{
    is_given(signature_at(line, brace))
}

// The white space that most lines start with.
const SPACE: u8 = b' ';

// What the line at a place opens with: its first character that is no white space tells, so that its end need not be found first. Spaces,
// CR and U+3000 are told by their bytes.
fn opening_at(text: &[u8], at: usize) -> Opening
    requires { at < length text.now }
    ensures { OpensBy result text.now at }
{
    let mut i = at;
    while i < text.len() {
        let b = text[i];
        if b == SPACE {
            i += 1;
            continue;
        }
        if b == b'\n' {
            return Opening::Blank(i + 1);
        }
        if b == b'#' {
            return Opening::Comment(i);
        }
        if b' ' < b {
            if b < 0x80 {
                return Opening::Other;
            }
        }
        if b == b'\r' {
            i += 1;
            continue;
        }
        if is_wide(text, i) {
            i += 3;
            continue;
        }
        let length = white_length(text, i);
        if length == 0 {
            return Opening::Other;
        }
        i += length;
    }
    Opening::Blank(i)
}

// The signature that a comment gives, by places in the text: its `#` stands at `hash`, and its line ends at `end`. It counts only where
// there is a member before it.
fn signature_in(text: &[u8], hash: usize, end: usize, member: bool) -> Option<Residual>
    requires { (hash ≤ «end») × («end» ≤ length text.now) }
    ensures { Gives text.now result (heeded member (hash_gives (between text.now hash «end»))) }
{
    if !member {
        return None;
    }
    let size = trim_end(&text[hash..end]);
    let stop = hash + size;
    let Some(gap) = first_byte(&text[hash..stop], b'{') else {
        return None;
    };
    signature_between(text, hash + gap, stop)
}

// No line is passed yet.
fn none_passed() -> Passed
    ensures { result ≡ passed_of 0 0 0 0 }
{
    Passed {
        bytes: 0,
        blank: 0,
        applied: 0,
        idle: 0,
    }
}

// The blank lines and comments at the start of a text, which stands behind a class line or a member line, up to another one; and the
// signature of the last comment that gives one. `member`: whether the line before is a member line.
pub fn residual_after(text: &[u8], member: bool) -> Looked
    requires { length text.now ≤ most_text }
    ensures { Looks member text.now result }
{
    let mut residual = None;
    let mut passed = none_passed();
    while passed.bytes < text.len() {
        let at = passed.bytes;
        match opening_at(text, at) {
            Opening::Blank(next) => {
                passed.bytes = next;
                passed.blank += 1;
            }
            Opening::Comment(hash) => {
                let Some(
                    NextLine {
                        start: _,
                        end,
                        next,
                    },
                ) = next_line(text, hash)
                else {
                    return Looked { residual, passed };
                };
                passed.bytes = next;
                let own = signature_in(text, hash, end, member);
                if is_given(own) {
                    passed.applied += 1;
                    residual = own;
                    continue;
                }
                passed.idle += 1;
            }
            Opening::Other => {
                return Looked { residual, passed };
            }
        }
    }
    Looked { residual, passed }
}
