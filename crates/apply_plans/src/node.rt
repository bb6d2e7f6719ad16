// The plans of one node: its line context, and its tokens.
ghost use Rattle.std.specs.Prelude.{length};
ghost use Rattle.name_index.specs.Inner.Chains.{Chained};
ghost use Rattle.apply_members.specs.Inner.Notes.{MeantBy};
ghost use Rattle.apply_plans.specs.Inner.Noted.{context_noted};
ghost use Rattle.apply_plans.specs.Inner.Passed.{NodeReady, NodeBy};

use crate::context::node_context;
use crate::tokens::plan_tokens;
use apply_members::NodeNote;
use table_pool::NoRoom;
use table_rows::{ClassRow, MemberRow};
use tree_rule::TreeCounts;
use tree_words::put_word;

// The node of a row, whose `count` tokens start at token `first`.
pub fn plan_node(
    out: &mut [u8],
    tree: &[u8],
    counts: TreeCounts,
    node: usize,
    first: usize,
    count: usize,
    note: NodeNote,
    home: usize,
    chains: &[u16],
    classes: &[ClassRow],
    members: &[MemberRow],
    pool: &[u8],
    names: usize,
) -> Result<usize, NoRoom>
    requires { NodeReady classes.now members.now pool.now counts tree.now node first count note names out.old
        × MeantBy classes.now members.now pool.now home (context_noted tree.now out.old node note)
        × Chained classes.now pool.now members.now chains.now (length members.now) }
    ensures { NodeBy result classes.now members.now pool.now counts tree.now home node first count note
        names out.old out.new }
{
    let context = node_context(out, tree, node, note.inherits, note.lines);
    put_word(out, 16 + 8 * node, context);
    plan_tokens(
        out,
        tree,
        counts,
        first,
        count,
        note.member,
        note.named,
        context,
        home,
        chains,
        classes,
        members,
        pool,
        names,
    )
}
