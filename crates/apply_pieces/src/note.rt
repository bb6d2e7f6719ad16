// A note about a text: its first class piece that is known.
ghost use Rattle.std.specs.Prelude.{◌≡◌, ◌+◌, ◌≤◌, length};
ghost use Rattle.ground.specs.Put.{put};
ghost use Rattle.table_rows.specs.Rows.{most_classes};
ghost use Rattle.tables.specs.declared.search.Side.TheVariants.{Raw};
ghost use Rattle.table_index.specs.Inner.Index.{IndexBy};
ghost use Rattle.tree_rule.specs.Words.{word_bytes};
ghost use Rattle.apply_rule.specs.Applying.{most_tree};
ghost use Rattle.apply_pieces.specs.Inner.Notes.{NoteBy};

use crate::known::{KnownPiece, first_known};
use table_rows::ClassRow;
use tree_words::put_word;

// The first known piece of a text: one more than the place where it starts, and its row. Where there is none both are 0.
#[derive(Clone, Copy)]
pub struct Note {
    pub start: u32,
    pub row: u32,
}

pub fn note_of(index: &[u16], classes: &[ClassRow], pool: &[u8], text: &[u8]) -> Note
    requires { (length text.now ≤ most_tree)
        × (length classes.now ≤ most_classes)
        × IndexBy Raw classes.now pool.now index.now }
    ensures { NoteBy result classes.now pool.now text.now }
{
    let Some(KnownPiece { start, row }) = first_known(index, classes, pool, text, 0) else {
        return Note { start: 0, row: 0 };
    };
    let place = start + 1;
    Note {
        start: place as u32,
        row: row as u32,
    }
}

pub fn put_note(out: &mut [u8], at: usize, note: Note)
    requires { at + 8 ≤ length out.old }
    ensures { out.new ≡ put (put out.old at (word_bytes note.start)) (at + 4) (word_bytes note.row) }
{
    put_word(out, at, note.start);
    put_word(out, at + 4, note.row);
}
