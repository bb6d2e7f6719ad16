// What stands ahead of each group of bytes of a text, kept in the room that the text itself will take.
ghost use Rattle.std.specs.Prelude.{◌≡◌, ◌+◌, ◌≤◌, length};
ghost use Rattle.apply_pieces.specs.Inner.Sought.{Seekable, Sought};
ghost use Rattle.apply_pieces.specs.Inner.Groups.{ahead_at, ahead_put, Told, GroupsTold};

use crate::ahead::{Ahead, ahead_of, none_ahead, seek_known};
use crate::note::{Note, put_note};
use table_rows::ClassRow;
use tree_words::{put_word, word_at};

// The bytes of a group: not fewer than the 20 that tell of it.
const GROUP: usize = 64;

fn ahead_at(out: &[u8], at: usize) -> Ahead
    requires { at + 20 ≤ length out.now }
    ensures { result ≡ ahead_at out.now at }
{
    let known = Note {
        start: word_at(out, at),
        row: word_at(out, at + 4),
    };
    let past = word_at(out, at + 8);
    let after = Note {
        start: word_at(out, at + 12),
        row: word_at(out, at + 16),
    };
    Ahead { known, past, after }
}

fn put_ahead(out: &mut [u8], at: usize, ahead: Ahead)
    requires { at + 20 ≤ length out.old }
    ensures { out.new ≡ ahead_put out.old at ahead }
{
    let known = ahead.known;
    put_note(out, at, known);
    put_word(out, at + 8, ahead.past);
    let after = ahead.after;
    put_note(out, at + 12, after);
}

// All whole groups, from the last one on: each by what stands ahead of the next.
pub fn tell_groups(
    out: &mut [u8],
    room: usize,
    text: &[u8],
    index: &[u16],
    classes: &[ClassRow],
    pool: &[u8],
    longest: usize,
)
    requires { Seekable index.now classes.now pool.now longest text.now × (room + length text.now ≤ length out.old) }
    ensures { GroupsTold classes.now pool.now text.now room out.old out.new }
{
    let mut group = text.len() / GROUP;
    let mut stop = text.len();
    let mut ahead = none_ahead();
    while 0 < group {
        group -= 1;
        let from = GROUP * group;
        ahead = ahead_of(index, classes, pool, longest, text, from, stop, ahead);
        put_ahead(out, room + from, ahead);
        stop = from;
    }
}

// The first known piece from a place on: what stands up to the next group is read, or up to the end where no group is told of.
pub fn known_from(
    out: &[u8],
    room: usize,
    text: &[u8],
    index: &[u16],
    classes: &[ClassRow],
    pool: &[u8],
    longest: usize,
    from: usize,
) -> Note
    requires { Seekable index.now classes.now pool.now longest text.now
        × (room + length text.now ≤ length out.now)
        × Told 0 classes.now pool.now text.now room out.now
        × («from» ≤ length text.now) }
    ensures { Sought result classes.now pool.now text.now «from» }
{
    let group = from / GROUP + 1;
    if text.len() / GROUP <= group {
        let end = text.len();
        return seek_known(index, classes, pool, longest, text, from, end, none_ahead());
    }
    let stop = GROUP * group;
    let ahead = ahead_at(out, room + stop);
    seek_known(index, classes, pool, longest, text, from, stop, ahead)
}
