// The next class piece of a text, looked for up to a place.
ghost use Rattle.std.specs.Prelude.{◌≤◌, length};
ghost use Rattle.apply_pieces.specs.Inner.Within.{WithinBy};

use text_places::first_byte;

#[derive(Clone, Copy)]
pub enum Within {
    // It ends by the place.
    Closed { start: usize, end: usize },
    // Its `L` stands before the place, and no `;` between.
    Open { start: usize },
    Nowhere,
}

pub fn next_within(text: &[u8], from: usize, stop: usize) -> Within
    requires { («from» ≤ stop) × (stop ≤ length text.now) }
    ensures { WithinBy result text.now «from» stop }
{
    let Some(plain) = first_byte(&text[from..stop], b'L') else {
        return Within::Nowhere;
    };
    let start = from + plain;
    let Some(gap) = first_byte(&text[start..stop], b';') else {
        return Within::Open { start };
    };
    let end = start + gap + 1;
    Within::Closed { start, end }
}
