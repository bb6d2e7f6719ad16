// The line context of a node, by the number that stands in its row of the output.
ghost use Rattle.std.specs.Prelude.{◌≡◌, ◌+◌, ◌*◌, ◌≤◌, length};
ghost use Rattle.ground.specs.Choice.{pick};
ghost use Rattle.tree_rule.specs.Files.{nodes_start};
ghost use Rattle.apply_plans.specs.Inner.Noted.{word_above, ParentBelow};

use tree_words::{parent_at, word_at};

// The number of the node above; none is above the first.
fn context_above(out: &[u8], tree: &[u8], node: usize) -> u32
    requires { (nodes_start + 8 * node + 8 ≤ length tree.now)
        × (nodes_start + 8 * node + 8 ≤ length out.now)
        × ParentBelow tree.now node }
    ensures { result ≡ word_above tree.now out.now node }
{
    if node == 0 {
        return 0;
    }
    let parent = parent_at(tree, node) as usize;
    word_at(out, 16 + 8 * parent)
}

// "otherwise the parent's holds".
pub fn node_context(out: &[u8], tree: &[u8], node: usize, inherits: bool, lines: u32) -> u32
    requires { (nodes_start + 8 * node + 8 ≤ length tree.now)
        × (nodes_start + 8 * node + 8 ≤ length out.now)
        × ParentBelow tree.now node }
    ensures { result ≡ pick inherits (word_above tree.now out.now node) lines }
{
    if inherits {
        return context_above(out, tree, node);
    }
    lines
}
