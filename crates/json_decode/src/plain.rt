// Strings without escapes: they stand for their own bytes, and are compared and lent as such.
ghost use Rattle.std.specs.Prelude.{◌≡◌, length, drop};
ghost use Rattle.json_grammar.specs.Reader.{chars_from};
ghost use Rattle.json_string.specs.Inner.Plain.{plain_run};
ghost use Rattle.json_decode.specs.Decoded.{decoded_is};
ghost use Rattle.json_decode.specs.Inner.Plain.{plain_string};

use crate::compare::decoded_is;
use json_string::plain_end;
use text_places::same_text;

// The place of the quotation mark that ends a string without escapes, whose first char is at `start`; none where it has some or is no
// string.
pub fn plain_string(s: &[u8], start: usize) -> Option<usize>
    ensures { result ≡ plain_string s.now start }
{
    let end = plain_end(s, start);
    if s.len() <= end {
        return None;
    }
    if s[end] != b'"' {
        return None;
    }
    Some(end)
}

// As `decoded_is`, for a word of plain bytes: most strings that stand for it have no escapes either.
pub fn stands_for(s: &[u8], start: usize, word: &[u8]) -> bool
    requires { plain_run word.now ≡ length word.now }
    ensures { result ≡ decoded_is word.now (chars_from 0 (drop start s.now)) }
{
    if start < s.len() {
        if word.len() < s.len() - start {
            let end = start + word.len();
            if s[end] == b'"' {
                if same_text(&s[start..end], word) {
                    return true;
                }
            }
        }
    }
    decoded_is(s, start, word)
}
