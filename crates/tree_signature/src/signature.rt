// The signature of a node, found by three walks over its tokens.
ghost use Rattle.std.specs.Prelude.{◌≡◌, ◌+◌, ◌*◌, ◌-◌, ◌≤◌, length};
ghost use Rattle.tree_rule.specs.Words.{list_from};
ghost use Rattle.tree_rule.specs.Trees.{name_in};
ghost use Rattle.tree_rule.specs.Files.{token_at, tree_by};
ghost use Rattle.tree_rule.specs.Signatures.{first_token, last_token, is_owner, owner_by, owner_from, node_signature, signature_from};
ghost use Rattle.tree_rule.specs.Theorems.{FormedBy};
ghost use Rattle.tree_signature.specs.Inner.Tokens.{of_kind, row_of, token_of};

use crate::token::is_descriptor;
use tree_rule::{NodeSignature, Owner, TreeCounts};
use tree_words::{tokens_start, word_at};

// The first of a node's tokens that has a kind, from one of them on. Their rows start at the place `base`; they count from the node's
// first.
fn first_of_kind(tree: &[u8], base: usize, start: usize, count: usize, kind: u32) -> Option<usize>
    requires { (base + 12 * count ≤ length tree.now) × (1 ≤ kind) × (kind ≤ 3) }
    ensures { let f = tree.now in
        result ≡ first_token (of_kind kind) start (list_from (row_of f base) start (count - start)) }
{
    for token in start..count {
        if word_at(tree, base + 12 * token) == kind {
            return Some(token);
        }
    }
    None
}

// "as owner the nearest earlier descriptor not starting `(`, else the class given".
fn owner_before(tree: &[u8], counts: TreeCounts, first: usize, member: usize) -> Owner
    requires { FormedBy counts tree.now × (first + member ≤ counts.tokens) }
    ensures { let f = tree.now in
        result ≡ owner_from first
        (owner_by (last_token (is_owner (name_in (tree_by counts f))) 0 (list_from (token_of counts f first) 0 member))) }
{
    let mut end = member;
    while 0 < end {
        let token = end - 1;
        if is_descriptor(tree, counts, first + token, false) {
            return Owner::At(first + token);
        }
        end = token;
    }
    Owner::Given
}

// The signature of a node whose `count` tokens start at token `first`, by numbers of tokens.
pub fn node_signature(
    tree: &[u8],
    counts: TreeCounts,
    first: usize,
    count: usize,
) -> Option<NodeSignature>
    requires { FormedBy counts tree.now × (first + count ≤ counts.tokens) }
    ensures { let f = tree.now in
        result ≡ signature_from first (node_signature (name_in (tree_by counts f)) (list_from (token_at counts f) first count)) }
{
    let base = tokens_start(counts) + 12 * first;
    let member = first_of_kind(tree, base, 0, count, 1)?;
    let descriptor = first_of_kind(tree, base, member + 1, count, 2)?;
    Some(NodeSignature {
        member: first + member,
        descriptor: first + descriptor,
        owner: owner_before(tree, counts, first, member),
    })
}
