// All checks of a tree file.
ghost use Rattle.std.specs.Prelude.{◌≡◌, length};
ghost use Rattle.ground.specs.Choice.{both};
ghost use Rattle.tree_rule.specs.Files.{file_length};
ghost use Rattle.tree_rule.specs.Checks.{all_fine, faulty_name, faulty_text, well_formed_file};

use crate::names::{faulty_name, faulty_text};
use crate::nodes::{counts_sum, faulty_parent, length_agrees, root_fine};
use crate::tokens::faulty_token;
use tree_rule::TreeCounts;
use tree_words::counts_in;

fn all_fine(rows: Option<usize>) -> bool
    ensures { result ≡ all_fine rows }
{
    rows.is_none()
}

// The two checks of names: the second rests on the first.
fn names_fine(tree: &[u8], counts: TreeCounts) -> bool
    requires { length tree.now ≡ file_length counts }
    ensures { let f = tree.now in result ≡ both (all_fine (faulty_name counts f)) (all_fine (faulty_text counts f)) }
{
    if !all_fine(faulty_name(tree, counts)) {
        return false;
    }
    all_fine(faulty_text(tree, counts))
}

// Whether a tree file is well formed; where it is not, the answer to the caller is 12. "Checked in this order, all rows at a time."
pub fn well_formed_tree(tree: &[u8]) -> bool
    ensures { result ≡ well_formed_file tree.now }
{
    if tree.len() < 16 {
        return false;
    }
    let counts = counts_in(tree);
    if !length_agrees(tree, counts) {
        return false;
    }
    if !root_fine(tree, counts) {
        return false;
    }
    if !all_fine(faulty_parent(tree, counts)) {
        return false;
    }
    if !counts_sum(tree, counts) {
        return false;
    }
    if !all_fine(faulty_token(tree, counts)) {
        return false;
    }
    names_fine(tree, counts)
}
