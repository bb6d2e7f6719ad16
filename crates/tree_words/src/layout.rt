// The counts at the head of a tree file, and where its stretches start. Counts are any 32-bit numbers: no sum of their products wraps.
ghost use Rattle.std.specs.Prelude.{◌≡◌, ◌≤◌, length};
ghost use Rattle.tree_rule.specs.Files.{counts_in, tokens_start, names_start, bytes_start, file_length, bytes_in};

use crate::rows::word_at;
use tree_rule::TreeCounts;

pub fn counts_in(tree: &[u8]) -> TreeCounts
    requires { 16 ≤ length tree.now }
    ensures { result ≡ counts_in tree.now }
{
    TreeCounts {
        nodes: word_at(tree, 0),
        tokens: word_at(tree, 4),
        names: word_at(tree, 8),
        bytes: word_at(tree, 12),
    }
}

// Where the token rows start.
pub fn tokens_start(counts: TreeCounts) -> usize
    ensures { result ≡ tokens_start counts }
{
    16 + 8 * counts.nodes as usize
}

// Where the name rows start.
pub fn names_start(counts: TreeCounts) -> usize
    ensures { result ≡ names_start counts }
{
    tokens_start(counts) + 12 * counts.tokens as usize
}

// Where the name bytes start.
pub fn bytes_start(counts: TreeCounts) -> usize
    ensures { result ≡ bytes_start counts }
{
    names_start(counts) + 8 * counts.names as usize
}

// The length of a file with these counts.
pub fn file_length(counts: TreeCounts) -> usize
    ensures { result ≡ file_length counts }
{
    bytes_start(counts) + counts.bytes as usize
}

// The name bytes of a file.
pub fn name_bytes(tree: &[u8], counts: TreeCounts) -> &[u8]
    requires { file_length counts ≤ length tree.now }
    ensures { result.now ≡ bytes_in counts tree.now }
{
    let start = bytes_start(counts);
    let end = file_length(counts);
    &tree[start..end]
}
