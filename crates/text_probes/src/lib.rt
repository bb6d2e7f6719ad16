// C functions over characters, white space, places and lines, for differential runs and for timing. Each writes its answer as numbers.
#![tactic(auto)]

ghost use Rattle.std.specs.Prelude.{◌≡◌, ◌<◌, ◌^◌, drop};
ghost use Rattle.ground.specs.Choice.{bit};
ghost use Rattle.text_utf8.specs.Utf8.{sequence_of, check_of};
ghost use Rattle.text_white.specs.White.{is_white};
ghost use Rattle.text_places.specs.Places.{same, place_number};
ghost use Rattle.text_places.specs.Inner.NextLine.{next_line};
ghost use Rattle.text_probes.specs.Answers.{sequence_numbers, check_numbers, trim_numbers, next_line_numbers, byte_numbers};

use text_places::NextLine;
use text_utf8::{Broken, Sequence};

// A place as a number, counted from 1.
fn place_number(p: Option<usize>) -> u64
    requires { place_number p < 2 ^ 64 }
    ensures { result ≡ place_number p }
{
    match p {
        Some(i) => i as u64 + 1,
        None => 0,
    }
}

#[unsafe(no_mangle)]
pub extern "C" fn clumarief_probe_sequence(text: &[u8], at: usize, answer: &mut [u64; 3])
    ensures { answer.new ≡ sequence_numbers (sequence_of (drop at text.now)) }
{
    match text_utf8::sequence_at(text, at) {
        Sequence::End => {
            *answer = [0, 0, 0];
        }
        Sequence::Good { code, length } => {
            *answer = [1, code as u64, length as u64];
        }
        Sequence::Bad { length } => {
            *answer = [2, 0, length as u64];
        }
    }
}

#[unsafe(no_mangle)]
pub extern "C" fn clumarief_probe_check(text: &[u8], answer: &mut [u64; 3])
    ensures { answer.new ≡ check_numbers (check_of text.now) }
{
    match text_utf8::check_text(text) {
        Ok(()) => {
            *answer = [0, 0, 0];
        }
        Err(Broken { at, length }) => {
            *answer = [1, at as u64, length as u64];
        }
    }
}

#[unsafe(no_mangle)]
pub extern "C" fn clumarief_probe_white(code: u32) -> u32
    ensures { result ≡ bit (is_white code) }
{
    text_places::bit_number(text_white::is_white(code))
}

#[unsafe(no_mangle)]
pub extern "C" fn clumarief_probe_trim(text: &[u8], answer: &mut [u64; 8])
    ensures { answer.new ≡ trim_numbers text.now }
{
    let both = text_white::trim_both(text);
    let start = both.start;
    let end = both.end;
    *answer = [
        text_white::trim_start(text) as u64,
        text_white::trim_end(text) as u64,
        start as u64,
        end as u64,
        text_white::after_marks(text) as u64,
        text_places::bit_number(text_white::white_at(text, 0)) as u64,
        place_number(text_white::first_white(text)),
        place_number(text_white::last_white(text)),
    ];
}

#[unsafe(no_mangle)]
pub extern "C" fn clumarief_probe_line(text: &[u8], at: usize, answer: &mut [u64; 4])
    ensures { answer.new ≡ next_line_numbers (next_line text.now at) }
{
    match text_places::next_line(text, at) {
        Some(NextLine { start, end, next }) => {
            *answer = [1, start as u64, end as u64, next as u64];
        }
        None => {
            *answer = [0, 0, 0, 0];
        }
    }
}

#[unsafe(no_mangle)]
pub extern "C" fn clumarief_probe_bytes(text: &[u8], a: u8, b: u8, answer: &mut [u64; 3])
    ensures { answer.new ≡ byte_numbers a b text.now }
{
    *answer = [
        place_number(text_places::first_byte(text, a)),
        place_number(text_places::last_byte(text, a)),
        place_number(text_places::first_pair(text, a, b)),
    ];
}

#[unsafe(no_mangle)]
pub extern "C" fn clumarief_probe_same(s: &[u8], t: &[u8]) -> u32
    ensures { result ≡ bit (same s.now t.now) }
{
    text_places::bit_number(text_places::same_bytes(s, t))
}
