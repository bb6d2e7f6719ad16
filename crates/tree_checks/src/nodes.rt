// The length, and the node rows: root, parents, token counts.
ghost use Rattle.std.specs.Prelude.{◌≡◌, ◌+◌, ◌*◌, ◌≤◌, length};
ghost use Rattle.tree_rule.specs.Files.{nodes_start, file_length};
ghost use Rattle.tree_rule.specs.Checks.{length_agrees, root_fine, parent_lower, faulty_parent, counts_sum};

use tree_rule::TreeCounts;
use tree_words::{file_length, parent_at, token_count_at};

// "The length must agree".
pub fn length_agrees(tree: &[u8], counts: TreeCounts) -> bool
    ensures { result ≡ length_agrees counts tree.now }
{
    tree.len() == file_length(counts)
}

// "N is at least 1; row 0's parent is FFFFFFFF".
pub fn root_fine(tree: &[u8], counts: TreeCounts) -> bool
    requires { length tree.now ≡ file_length counts }
    ensures { result ≡ root_fine counts tree.now }
{
    if counts.nodes < 1 {
        return false;
    }
    parent_at(tree, 0) == 0xFFFFFFFF
}

fn parent_lower(tree: &[u8], row: usize) -> bool
    requires { nodes_start + 8 * row + 8 ≤ length tree.now }
    ensures { result ≡ parent_lower tree.now row }
{
    let parent = parent_at(tree, row) as usize;
    parent < row
}

// "any other's a lower row": the first node row whose parent is not.
pub fn faulty_parent(tree: &[u8], counts: TreeCounts) -> Option<usize>
    requires { length tree.now ≡ file_length counts }
    ensures { result ≡ faulty_parent counts tree.now }
{
    let nodes = counts.nodes as usize;
    for row in 1..nodes {
        if !parent_lower(tree, row) {
            return Some(row);
        }
    }
    None
}

// "token counts sum to T".
pub fn counts_sum(tree: &[u8], counts: TreeCounts) -> bool
    requires { length tree.now ≡ file_length counts }
    ensures { result ≡ counts_sum counts tree.now }
{
    let nodes = counts.nodes as usize;
    let mut sum: usize = 0;
    for row in 0..nodes {
        sum += token_count_at(tree, row) as usize;
    }
    sum == counts.tokens as usize
}
