// What a string stands for, without writing it down.
ghost use Rattle.std.specs.Prelude.{◌≡◌, length, drop};
ghost use Rattle.json_grammar.specs.Encode.{utf8};
ghost use Rattle.json_grammar.specs.Reader.{chars_from};
ghost use Rattle.json_decode.specs.Decoded.{decoded_length};

use json_string::{Piece, piece_at};

// How many bytes a code point has in UTF-8.
#[tactic(auto, using(crate::proofs::Lengths::utf8_lengths))]
pub fn utf8_length(code: u32) -> usize
    ensures { result ≡ length (utf8 code) }
{
    if code < 0x80 {
        return 1;
    }
    if code < 0x800 {
        return 2;
    }
    if code < 0x10000 {
        return 3;
    }
    4
}

// The length of what a string stands for, whose first char is at `start`; none where no string stands there.
pub fn decoded_length(s: &[u8], start: usize) -> Option<usize>
    ensures { result ≡ decoded_length (chars_from 0 (drop start s.now)) }
{
    let mut total = 0;
    let mut at = start;
    while at < s.len() {
        match piece_at(s, at) {
            Piece::Byte(_, next) => {
                total += 1;
                at = next;
            }
            Piece::Code(code, next) => {
                total += utf8_length(code);
                at = next;
            }
            Piece::Closes(_) => {
                return Some(total);
            }
            Piece::Wrong => {
                return None;
            }
        }
    }
    None
}
