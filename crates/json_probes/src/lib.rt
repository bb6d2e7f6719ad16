// C functions over comments and the strings in them, for differential runs and for timing. Each writes its answer as numbers.
#![tactic(auto)]

ghost use Rattle.std.specs.Prelude.{◌≡◌, length, drop};
ghost use Rattle.ground.specs.Choice.{bit};
ghost use Rattle.json_grammar.specs.Reader.{chars_from};
ghost use Rattle.json_decode.specs.Decoded.{decoded_length, written_of, room_of};
ghost use Rattle.json_comment.specs.Answer.{comment_of, residual_of};
ghost use Rattle.json_probes.specs.Answers.{stands_kind, stands_place, comment_answer_numbers, decoded_numbers, written_numbers};

use json_comment::{Comment, Stands};
use json_decode::WriteError;

// Which case stands under a name.
fn stands_kind(stands: Stands) -> u64
    ensures { result ≡ stands_kind stands }
{
    match stands {
        Stands::Missing => 0,
        Stands::Other => 1,
        Stands::Text(_) => 2,
    }
}

// The place of a string's first char.
fn stands_place(stands: Stands) -> u64
    ensures { result ≡ stands_place stands }
{
    match stands {
        Stands::Missing => 0,
        Stands::Other => 0,
        Stands::Text(at) => at as u64,
    }
}

#[unsafe(no_mangle)]
pub extern "C" fn clumarief_probe_comment(text: &[u8], answer: &mut [u64; 5])
    ensures { answer.new ≡ comment_answer_numbers (comment_of text.now) }
{
    match json_comment::read_comment(text) {
        None => {
            *answer = [0, 0, 0, 0, 0];
        }
        Some(Comment { id, signature }) => {
            *answer = [
                1,
                stands_kind(id),
                stands_place(id),
                stands_kind(signature),
                stands_place(signature),
            ];
        }
    }
}

#[unsafe(no_mangle)]
pub extern "C" fn clumarief_probe_decoded_length(text: &[u8], start: usize, answer: &mut [u64; 2])
    ensures { answer.new ≡ decoded_numbers (decoded_length (chars_from 0 (drop start text.now))) }
{
    match json_decode::decoded_length(text, start) {
        Some(n) => {
            *answer = [1, n as u64];
        }
        None => {
            *answer = [0, 0];
        }
    }
}

#[unsafe(no_mangle)]
pub extern "C" fn clumarief_probe_decode(
    text: &[u8],
    start: usize,
    room: &mut [u8],
    at: usize,
    answer: &mut [u64; 2],
)
    ensures answer_after { let string = chars_from 0 (drop start text.now) in
        answer.new ≡ written_numbers (written_of string at (length room.old)) }
    ensures room_after { room.new ≡ room_of (chars_from 0 (drop start text.now)) at room.old }
{
    match json_decode::decode_at(room, at, text, start) {
        Ok(end) => {
            *answer = [1, end as u64];
        }
        Err(WriteError::NoRoom) => {
            *answer = [2, 0];
        }
        Err(WriteError::NoString) => {
            *answer = [0, 0];
        }
    }
}

#[unsafe(no_mangle)]
pub extern "C" fn clumarief_probe_residual(text: &[u8], start: usize) -> u32
    ensures { result ≡ bit (residual_of (chars_from 0 (drop start text.now))) }
{
    text_places::bit_number(json_comment::is_residual(text, start))
}
