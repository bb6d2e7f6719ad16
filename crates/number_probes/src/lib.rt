// C functions over numbers and ranges, for differential runs and for timing. Each writes its answer as numbers.
#![tactic(auto)]

ghost use Rattle.std.specs.Prelude.{◌≡◌};
ghost use Rattle.number.specs.Numbers.{number_of};
ghost use Rattle.number.specs.Ranges.{leading_range, trailing_range};
ghost use Rattle.number_probes.specs.Answers.{number_numbers, leading_numbers, trailing_numbers};

use number::{LeadingRange, TrailingRange};

#[unsafe(no_mangle)]
pub extern "C" fn clumarief_probe_number(text: &[u8], answer: &mut [u64; 2])
    ensures { answer.new ≡ number_numbers (number_of text.now) }
{
    match number::read_number(text) {
        Some(v) => {
            *answer = [1, v as u64];
        }
        None => {
            *answer = [0, 0];
        }
    }
}

#[unsafe(no_mangle)]
pub extern "C" fn clumarief_probe_leading(text: &[u8], answer: &mut [u64; 4])
    ensures { answer.new ≡ leading_numbers (leading_range text.now) }
{
    match number::leading_range(text) {
        Some(LeadingRange { start, end, rest }) => {
            *answer = [1, start as u64, end as u64, rest as u64];
        }
        None => {
            *answer = [0, 0, 0, 0];
        }
    }
}

#[unsafe(no_mangle)]
pub extern "C" fn clumarief_probe_trailing(text: &[u8], answer: &mut [u64; 4])
    ensures { answer.new ≡ trailing_numbers (trailing_range text.now) }
{
    match number::trailing_range(text) {
        Some(
            TrailingRange {
                start,
                end,
                second_unread,
            },
        ) => {
            *answer = [
                1,
                start as u64,
                end as u64,
                text_places::bit_number(second_unread) as u64,
            ];
        }
        None => {
            *answer = [0, 0, 0, 0];
        }
    }
}
