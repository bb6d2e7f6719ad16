// The first known piece of a text from a place on, by what is known of a later place.
ghost use Rattle.std.specs.Prelude.{◌≡◌, ◌≤◌, ◌<◌};
ghost use Rattle.table_rows.specs.Rows.{most_classes};
ghost use Rattle.apply_rule.specs.Applying.{most_tree};
ghost use Rattle.apply_pieces.specs.Inner.Within.{OpenAt};
ghost use Rattle.apply_pieces.specs.Inner.Sought.{note_at, Sought, Seekable};
ghost use Rattle.apply_pieces.specs.Inner.Ahead.{none_ahead, AheadBy};

use crate::note::Note;
use crate::rows::row_of;
use crate::within::{Within, next_within};
use table_rows::ClassRow;
use text_places::first_byte;

// What stands ahead of a place: the first known piece, the place behind the first `;`, or 0, and the first known piece behind that `;`.
#[derive(Clone, Copy)]
pub struct Ahead {
    pub known: Note,
    pub past: u32,
    pub after: Note,
}

// What stands ahead of the end of a text.
pub fn none_ahead() -> Ahead
    ensures { result ≡ none_ahead }
{
    let none = Note { start: 0, row: 0 };
    Ahead {
        known: none,
        past: 0,
        after: none,
    }
}

fn found_note(start: usize, row: usize) -> Note
    requires { (start < most_tree) × (row < most_classes) }
    ensures { result ≡ note_at start row }
{
    let place = start + 1;
    Note {
        start: place as u32,
        row: row as u32,
    }
}

// From an `L` on with no `;` up to the place that `ahead` tells of.
fn open_known(
    index: &[u16],
    classes: &[ClassRow],
    pool: &[u8],
    longest: usize,
    text: &[u8],
    start: usize,
    stop: usize,
    ahead: Ahead,
) -> Note
    requires { Seekable index.now classes.now pool.now longest text.now
        × OpenAt text.now start stop
        × AheadBy ahead classes.now pool.now text.now stop }
    ensures { Sought result classes.now pool.now text.now start }
{
    if ahead.past == 0 {
        return Note { start: 0, row: 0 };
    }
    let end = ahead.past as usize;
    match row_of(index, classes, pool, longest, &text[start..end]) {
        Some(row) => found_note(start, row),
        None => ahead.after,
    }
}

// From any place before the one that `ahead` tells of: only what stands between is read, and at most one longer piece.
pub fn seek_known(
    index: &[u16],
    classes: &[ClassRow],
    pool: &[u8],
    longest: usize,
    text: &[u8],
    from: usize,
    stop: usize,
    ahead: Ahead,
) -> Note
    requires { Seekable index.now classes.now pool.now longest text.now
        × («from» ≤ stop)
        × AheadBy ahead classes.now pool.now text.now stop }
    ensures { Sought result classes.now pool.now text.now «from» }
{
    let mut at = from;
    loop {
        match next_within(text, at, stop) {
            Within::Nowhere => {
                return ahead.known;
            }
            Within::Open { start: open } => {
                return open_known(index, classes, pool, longest, text, open, stop, ahead);
            }
            Within::Closed { start, end } => {
                match row_of(index, classes, pool, longest, &text[start..end]) {
                    Some(row) => {
                        return found_note(start, row);
                    }
                    None => {
                        at = end;
                    }
                }
            }
        }
    }
}

// What stands ahead of a place, by what stands ahead of a later one.
pub fn ahead_of(
    index: &[u16],
    classes: &[ClassRow],
    pool: &[u8],
    longest: usize,
    text: &[u8],
    from: usize,
    stop: usize,
    ahead: Ahead,
) -> Ahead
    requires { Seekable index.now classes.now pool.now longest text.now
        × («from» ≤ stop)
        × AheadBy ahead classes.now pool.now text.now stop }
    ensures { AheadBy result classes.now pool.now text.now «from» }
{
    let known = seek_known(index, classes, pool, longest, text, from, stop, ahead);
    let Some(gap) = first_byte(&text[from..stop], b';') else {
        let after = ahead.after;
        return Ahead {
            known,
            past: ahead.past,
            after,
        };
    };
    let end = from + gap + 1;
    let after = seek_known(index, classes, pool, longest, text, end, stop, ahead);
    Ahead {
        known,
        past: end as u32,
        after,
    }
}
