// Numbers of four bytes, the rows that they make, and names.
ghost use Rattle.std.specs.Prelude.{◌≡◌, ◌+◌, ◌*◌, ◌≤◌, ◌<◌, length};
ghost use Rattle.tree_rule.specs.Words.{word_at};
ghost use Rattle.tree_rule.specs.Files.{nodes_start, file_length, parent_at, token_count_at, token_row, name_row, text_at};

use crate::layout::{name_bytes, names_start};
use table_rows::Text;
use tables::text_in;
use tree_rule::{Token, TreeCounts};

fn wide(b: u8) -> u32
    ensures { (result ≡ b) × (b < 256) }
{
    b as u32
}

// The number at a place: its lowest byte comes first.
pub fn word_at(tree: &[u8], at: usize) -> u32
    requires { at + 4 ≤ length tree.now }
    ensures { result ≡ word_at tree.now at }
{
    let low = wide(tree[at]) + 256 * wide(tree[at + 1]);
    low + 65536 * wide(tree[at + 2]) + 16777216 * wide(tree[at + 3])
}

// The parent of a node row.
pub fn parent_at(tree: &[u8], row: usize) -> u32
    requires { nodes_start + 8 * row + 8 ≤ length tree.now }
    ensures { result ≡ parent_at tree.now row }
{
    word_at(tree, 16 + 8 * row)
}

// The token count of a node row.
pub fn token_count_at(tree: &[u8], row: usize) -> u32
    requires { nodes_start + 8 * row + 8 ≤ length tree.now }
    ensures { result ≡ token_count_at tree.now row }
{
    word_at(tree, 16 + 8 * row + 4)
}

// The token row at a place.
pub fn token_row(tree: &[u8], at: usize) -> Token
    requires { at + 12 ≤ length tree.now }
    ensures { result ≡ token_row tree.now at }
{
    let kind = word_at(tree, at);
    let a = word_at(tree, at + 4);
    let b = word_at(tree, at + 8);
    if kind == 1 {
        return Token::MemberName { raw: a, display: b };
    }
    if kind == 2 {
        return Token::Descriptor { raw: a, display: b };
    }
    if kind == 3 {
        return Token::SourceLine { raw: a, display: b };
    }
    Token::Other { a: a, b: b }
}

// The name row at a place.
pub fn name_row(tree: &[u8], at: usize) -> Text
    requires { at + 8 ≤ length tree.now }
    ensures { result ≡ name_row tree.now at }
{
    Text {
        place: word_at(tree, at),
        length: word_at(tree, at + 4),
    }
}

// The text of a name. Of one that reaches past the name bytes, what stands among them.
pub fn name_text(tree: &[u8], counts: TreeCounts, name: usize) -> &[u8]
    requires { (file_length counts ≤ length tree.now) × (name < counts.names) }
    ensures { result.now ≡ text_at counts tree.now name }
{
    let row = name_row(tree, names_start(counts) + 8 * name);
    text_in(name_bytes(tree, counts), row)
}
