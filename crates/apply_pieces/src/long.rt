// Notes about names that overlap, by what stands ahead of each group of name bytes: however many rows have a byte, it is not read for each.
ghost use Rattle.std.specs.Prelude.{◌+◌, ◌≤◌, ◌<◌, length, take, drop};
ghost use Rattle.tree_rule.specs.Files.{text_at};
ghost use Rattle.apply_rule.specs.Applying.{most_tree};
ghost use Rattle.apply_pieces.specs.Inner.Notes.{NoteBy, Noted};
ghost use Rattle.apply_pieces.specs.Inner.Sought.{Sought};
ghost use Rattle.apply_pieces.specs.Inner.Groups.{GroupsReady};

use crate::groups::known_from;
use crate::note::{Note, note_of, put_note};
use crate::rows::raw_length;
use table_rows::ClassRow;
use tree_rule::TreeCounts;
use tree_words::{bytes_start, name_bytes, name_row, name_text, names_start};

// A name of so many bytes is short: it is searched by itself.
pub const SHORT: usize = 256;

// The note about the `size` bytes from a place on, by the first known piece from there on: it may end behind them.
fn cut_note(
    text: &[u8],
    classes: &[ClassRow],
    pool: &[u8],
    from: usize,
    size: usize,
    note: Note,
) -> Note
    requires { Sought note classes.now pool.now text.now «from»
        × («from» + size ≤ length text.now)
        × (length text.now ≤ most_tree) }
    ensures { NoteBy result classes.now pool.now (take size (drop «from» text.now)) }
{
    if note.start == 0 {
        return Note { start: 0, row: 0 };
    }
    let start = note.start as usize - 1;
    let end = start + raw_length(classes, pool, note.row as usize);
    if from + size < end {
        return Note { start: 0, row: 0 };
    }
    let place = start - from + 1;
    Note {
        start: place as u32,
        row: note.row,
    }
}

// The note about one name, where the groups are told of.
fn name_note(
    out: &[u8],
    tree: &[u8],
    counts: TreeCounts,
    index: &[u16],
    classes: &[ClassRow],
    pool: &[u8],
    longest: usize,
    name: usize,
) -> Note
    requires { GroupsReady counts tree.now index.now classes.now pool.now longest out.now × (name < counts.names) }
    ensures { NoteBy result classes.now pool.now (text_at counts tree.now name) }
{
    let text = name_text(tree, counts, name);
    let size = text.len();
    if size <= SHORT {
        return note_of(index, classes, pool, text);
    }
    let row = name_row(tree, names_start(counts) + 8 * name);
    let from = row.place as usize;
    let bytes = name_bytes(tree, counts);
    let room = bytes_start(counts);
    let note = known_from(out, room, bytes, index, classes, pool, longest, from);
    cut_note(bytes, classes, pool, from, size, note)
}

// As `note_each`, by `name_note`.
pub fn note_by_groups(
    out: &mut [u8],
    tree: &[u8],
    counts: TreeCounts,
    index: &[u16],
    classes: &[ClassRow],
    pool: &[u8],
    longest: usize,
)
    requires { GroupsReady counts tree.now index.now classes.now pool.now longest out.old }
    ensures { Noted counts tree.now classes.now pool.now out.old out.new }
{
    let start = names_start(counts);
    let count = counts.names as usize;
    for n in 0..count {
        let note = name_note(out, tree, counts, index, classes, pool, longest, n);
        put_note(out, start + 8 * n, note);
    }
}
