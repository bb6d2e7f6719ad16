// A string's bytes, written into a lent slice.
ghost use Rattle.std.specs.Prelude.{◌≡◌, length, drop};
ghost use Rattle.ground.specs.Put.{put};
ghost use Rattle.json_grammar.specs.Reader.{chars_from};
ghost use Rattle.json_decode.specs.Decoded.{decoded, written_of, room_of};
ghost use Rattle.json_decode.specs.Inner.Octets.{Fitting};

use crate::length::{decoded_length, utf8_length};
use crate::octets::put_octets;
use json_string::{Piece, piece_at};

#[derive(Clone, Copy)]
pub enum WriteError {
    NoRoom,
    NoString,
}

// Writes what a string stands for, which fits.
fn write_pieces(room: &mut [u8], at: usize, s: &[u8], start: usize)
    requires { Fitting (chars_from 0 (drop start s.now)) at (length room.old) }
    ensures { room.new ≡ put room.old at (decoded (chars_from 0 (drop start s.now))) }
{
    let mut to = at;
    let mut from = start;
    while from < s.len() {
        match piece_at(s, from) {
            Piece::Byte(b, next) => {
                room[to] = b;
                to += 1;
                from = next;
            }
            Piece::Code(code, next) => {
                put_octets(room, to, code);
                to += utf8_length(code);
                from = next;
            }
            Piece::Closes(_) => {
                return;
            }
            Piece::Wrong => {
                return;
            }
        }
    }
}

// Writes what a string stands for, whose first char is at `start`, into `room` from `at` on.
pub fn decode_at(room: &mut [u8], at: usize, s: &[u8], start: usize) -> Result<usize, WriteError>
    ensures value { result ≡ written_of (chars_from 0 (drop start s.now)) at (length room.old) }
    ensures room_after { room.new ≡ room_of (chars_from 0 (drop start s.now)) at room.old }
{
    let Some(n) = decoded_length(s, start) else {
        return Err(WriteError::NoString);
    };
    if room.len() < at {
        return Err(WriteError::NoRoom);
    }
    if room.len() - at < n {
        return Err(WriteError::NoRoom);
    }
    write_pieces(room, at, s, start);
    Ok(at + n)
}
