// Notes about the names of a tree: for each the first class piece that is known.
ghost use Rattle.std.specs.Prelude.{◌≤◌, length};
ghost use Rattle.table_rows.specs.Rows.{most_classes};
ghost use Rattle.tables.specs.declared.search.Side.TheVariants.{Raw};
ghost use Rattle.table_index.specs.Inner.Index.{IndexBy};
ghost use Rattle.tree_rule.specs.Files.{file_length};
ghost use Rattle.apply_rule.specs.Applying.{most_tree};
ghost use Rattle.apply_pieces.specs.Inner.Notes.{Noted};

use crate::groups::tell_groups;
use crate::long::{SHORT, note_by_groups};
use crate::note::{note_of, put_note};
use crate::rows::longest_raw;
use table_rows::ClassRow;
use tree_rule::TreeCounts;
use tree_words::{bytes_start, name_bytes, name_row, name_text, names_start};

// A note about each name, each text searched by itself.
fn note_each(
    out: &mut [u8],
    tree: &[u8],
    counts: TreeCounts,
    index: &[u16],
    classes: &[ClassRow],
    pool: &[u8],
)
    requires { (file_length counts ≤ length tree.now)
        × (length tree.now ≤ most_tree)
        × (file_length counts ≤ length out.old)
        × (length classes.now ≤ most_classes)
        × IndexBy Raw classes.now pool.now index.now }
    ensures { Noted counts tree.now classes.now pool.now out.old out.new }
{
    let start = names_start(counts);
    let count = counts.names as usize;
    for n in 0..count {
        let note = note_of(index, classes, pool, name_text(tree, counts, n));
        put_note(out, start + 8 * n, note);
    }
}

// Whether the long names have more bytes together than there are. Where they have not, to search each by itself is to read each byte once.
// Nothing is promised: both ways to note names serve all of them.
fn long_overlap(tree: &[u8], counts: TreeCounts) -> bool
    requires { file_length counts ≤ length tree.now }
{
    let start = names_start(counts);
    let count = counts.names as usize;
    let mut left = counts.bytes as usize;
    let mut n = 0;
    while n < count {
        let row = name_row(tree, start + 8 * n);
        let size = row.length as usize;
        n += 1;
        if size <= SHORT {
            continue;
        }
        if left < size {
            return true;
        }
        left -= size;
        continue;
    }
    false
}

// A note about each name, where the rows of the names will stand: a text that many tokens have is searched once. Where long names overlap,
// what stands ahead of each group of name bytes is noted first, in the room of the name bytes.
pub fn note_names(
    out: &mut [u8],
    tree: &[u8],
    counts: TreeCounts,
    index: &[u16],
    classes: &[ClassRow],
    pool: &[u8],
)
    requires { (file_length counts ≤ length tree.now)
        × (length tree.now ≤ most_tree)
        × (file_length counts ≤ length out.old)
        × (length classes.now ≤ most_classes)
        × IndexBy Raw classes.now pool.now index.now }
    ensures { Noted counts tree.now classes.now pool.now out.old out.new }
{
    if !long_overlap(tree, counts) {
        note_each(out, tree, counts, index, classes, pool);
        return;
    }
    let longest = longest_raw(classes, pool);
    let bytes = name_bytes(tree, counts);
    let room = bytes_start(counts);
    tell_groups(out, room, bytes, index, classes, pool, longest);
    note_by_groups(out, tree, counts, index, classes, pool, longest);
}
