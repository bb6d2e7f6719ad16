// A string against a given text, char by char and without a buffer.
ghost use Rattle.std.specs.Prelude.{◌≡◌, drop};
ghost use Rattle.json_grammar.specs.Reader.{chars_from};
ghost use Rattle.json_decode.specs.Decoded.{decoded_is};

use crate::length::utf8_length;
use crate::octets::has_octets;
use json_string::{Piece, piece_at};

// Whether a string, whose first char is at `start`, stands for a given text.
pub fn decoded_is(s: &[u8], start: usize, text: &[u8]) -> bool
    ensures { result ≡ decoded_is text.now (chars_from 0 (drop start s.now)) }
{
    let mut i = 0;
    let mut at = start;
    while at < s.len() {
        match piece_at(s, at) {
            Piece::Byte(b, next) => {
                if text.len() <= i {
                    return false;
                }
                if text[i] != b {
                    return false;
                }
                i += 1;
                at = next;
            }
            Piece::Code(code, next) => {
                if has_octets(text, i, code) {
                    i += utf8_length(code);
                    at = next;
                    continue;
                }
                return false;
            }
            Piece::Closes(_) => {
                return i == text.len();
            }
            Piece::Wrong => {
                return false;
            }
        }
    }
    false
}
