// The name rows: inside the name bytes, and UTF-8.
ghost use Rattle.std.specs.Prelude.{◌≡◌, ◌+◌, ◌≤◌, leb, length};
ghost use Rattle.tables.specs.Back.{text_in};
ghost use Rattle.text_utf8.specs.Utf8.{is_utf8};
ghost use Rattle.text_parts.specs.Inner.Reach.{Reached};
ghost use Rattle.tree_rule.specs.Files.{file_length, bytes_in};
ghost use Rattle.tree_rule.specs.Checks.{faulty_name, faulty_text};
ghost use Rattle.tree_checks.specs.Inner.Lie.{NamesLie};

use table_rows::Text;
use text_parts::{GROUPS, mark_reach, part_is_utf8};
use text_utf8::ascii_start;
use tree_rule::TreeCounts;
use tree_words::{name_bytes, name_row, names_start};

fn ends_inside(name: Text, bytes: u32) -> bool
    ensures { result ≡ leb (name.place + name.length) bytes }
{
    let end = name.place as usize + name.length as usize;
    end <= bytes as usize
}

// "names inside B": the first name row that is not.
pub fn faulty_name(tree: &[u8], counts: TreeCounts) -> Option<usize>
    requires { length tree.now ≡ file_length counts }
    ensures { result ≡ faulty_name counts tree.now }
{
    let start = names_start(counts);
    let names = counts.names as usize;
    for row in 0..names {
        if !ends_inside(name_row(tree, start + 8 * row), counts.bytes) {
            return Some(row);
        }
    }
    None
}

// Whether one name is UTF-8, by the table of how far the name bytes are.
fn name_utf8(bytes: &[u8], reach: &[u32], name: Text) -> bool
    requires { Reached bytes.now reach.now × (name.place + name.length ≤ length bytes.now) }
    ensures { result ≡ is_utf8 (text_in bytes.now name) }
{
    let start = name.place as usize;
    let end = start + name.length as usize;
    part_is_utf8(bytes, reach, start, end)
}

fn faulty_among(tree: &[u8], counts: TreeCounts, bytes: &[u8], reach: &[u32]) -> Option<usize>
    requires { NamesLie counts tree.now × (bytes.now ≡ bytes_in counts tree.now) × Reached bytes.now reach.now }
    ensures { result ≡ faulty_text counts tree.now }
{
    let start = names_start(counts);
    for row in 0..counts.names as usize {
        if !name_utf8(bytes, reach, name_row(tree, start + 8 * row)) {
            return Some(row);
        }
    }
    None
}

// "and UTF-8": the first name row whose text is not. Where all name bytes are ASCII no name is read. Names may overlap, so that other bytes
// are read once, into a table.
pub fn faulty_text(tree: &[u8], counts: TreeCounts) -> Option<usize>
    requires { NamesLie counts tree.now }
    ensures { result ≡ faulty_text counts tree.now }
{
    let bytes = name_bytes(tree, counts);
    if ascii_start(bytes) == bytes.len() {
        return None;
    }
    let mut reach = [0; GROUPS];
    mark_reach(&mut reach, bytes);
    faulty_among(tree, counts, bytes, &reach)
}
