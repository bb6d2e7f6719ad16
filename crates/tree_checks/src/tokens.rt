// The token rows: kinds, and the numbers of names.
ghost use Rattle.std.specs.Prelude.{◌≡◌, ◌+◌, ◌≤◌, length};
ghost use Rattle.tree_rule.specs.Words.{word_at};
ghost use Rattle.tree_rule.specs.Files.{file_length};
ghost use Rattle.tree_rule.specs.Checks.{faulty_token};
ghost use Rattle.tree_checks.specs.Inner.Bound.{kind_bounds, fine_by};

use tree_rule::TreeCounts;
use tree_words::{tokens_start, word_at};

// What no number of four bytes reaches.
const ANY: usize = 4294967296;

// Below what both numbers of a token have to be, for each kind.
fn kind_bounds(names: u32) -> [usize; 4]
    ensures { result ≡ kind_bounds names }
{
    let named = names as usize;
    [ANY, named, named, ANY]
}

// Kinds come in any order: the bound of each is read from a table, so that no branch on the kind is guessed wrong.
fn token_fine(tree: &[u8], at: usize, bounds: &[usize; 4]) -> bool
    requires { at + 12 ≤ length tree.now }
    ensures { let f = tree.now in
        result ≡ fine_by bounds.now (word_at f at) (word_at f (at + 4)) (word_at f (at + 8)) }
{
    let kind = word_at(tree, at) as usize;
    if 3 < kind {
        return false;
    }
    let bound = bounds[kind];
    if (word_at(tree, at + 4) as usize) < bound {
        return (word_at(tree, at + 8) as usize) < bound;
    }
    false
}

// "kind 1 member name and 2 descriptor (raw name, display name, below S), 3 source line (raw, display), 0 anything else, its a and b not
// read, no other kind": the first token row that breaks it.
pub fn faulty_token(tree: &[u8], counts: TreeCounts) -> Option<usize>
    requires { length tree.now ≡ file_length counts }
    ensures { result ≡ faulty_token counts tree.now }
{
    let start = tokens_start(counts);
    let bounds = kind_bounds(counts.names);
    for row in 0..counts.tokens as usize {
        if !token_fine(tree, start + 12 * row, &bounds) {
            return Some(row);
        }
    }
    None
}
