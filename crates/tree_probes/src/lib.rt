// C functions over tree files, for differential runs and for timing.
#![tactic(auto)]

ghost use Rattle.std.specs.Prelude.{◌≡◌};
ghost use Rattle.ground.specs.Choice.{bit};
ghost use Rattle.tree_rule.specs.Checks.{well_formed_file};
ghost use Rattle.tree_probes.specs.Answers.{present_numbers, signature_numbers, asked_numbers};

use tree_checks::well_formed_tree;
use tree_rule::{NodeSignature, Owner};
use tree_signature::node_signature;
use tree_words::counts_in;

// 1 where a tree file is well formed.
#[unsafe(no_mangle)]
pub extern "C" fn clumarief_probe_tree(tree: &[u8]) -> u32
    ensures { result ≡ bit (well_formed_file tree.now) }
{
    text_places::bit_number(well_formed_tree(tree))
}

// A signature that is there: 1, its two tokens, and 0 for the class given, or 1 and the token whose descriptor is the owner.
fn present_numbers(member: usize, descriptor: usize, owner: Owner) -> [u64; 5]
    ensures { result ≡ present_numbers member descriptor owner }
{
    match owner {
        Owner::Given => [1, member as u64, descriptor as u64, 0, 0],
        Owner::At(token) => [1, member as u64, descriptor as u64, 1, token as u64],
    }
}

fn signature_numbers(signature: Option<NodeSignature>) -> [u64; 5]
    ensures { result ≡ signature_numbers signature }
{
    match signature {
        None => [0, 0, 0, 0, 0],
        Some(
            NodeSignature {
                member,
                descriptor,
                owner,
            },
        ) => present_numbers(member, descriptor, owner),
    }
}

// The signature of a node whose `count` tokens start at token `first`; zeros where the file is malformed or has no such tokens.
#[unsafe(no_mangle)]
pub extern "C" fn clumarief_probe_node_signature(
    tree: &[u8],
    first: usize,
    count: usize,
    answer: &mut [u64; 5],
)
    ensures { answer.new ≡ asked_numbers tree.now first count }
{
    if !well_formed_tree(tree) {
        *answer = [0, 0, 0, 0, 0];
        return;
    }
    let counts = counts_in(tree);
    let tokens = counts.tokens as usize;
    if tokens < first {
        *answer = [0, 0, 0, 0, 0];
        return;
    }
    if tokens - first < count {
        *answer = [0, 0, 0, 0, 0];
        return;
    }
    *answer = signature_numbers(node_signature(tree, counts, first, count));
}
