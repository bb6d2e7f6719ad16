// The plans of all nodes. Parents are lower rows, so that the line context of a parent is known before its children come.
ghost use Rattle.std.specs.Prelude.{◌≡◌, length};
ghost use Rattle.tables.specs.declared.search.Side.TheVariants.{Raw};
ghost use Rattle.table_index.specs.Inner.Index.{IndexBy};
ghost use Rattle.name_index.specs.Inner.Chains.{Chained};
ghost use Rattle.apply_members.specs.Inner.Notes.{home_row};
ghost use Rattle.apply_plans.specs.Inner.Passed.{PlansReady, PlansBy};

use crate::node::plan_node;
use apply_members::node_note;
use table_index::last_raw;
use table_pool::NoRoom;
use table_rows::{ClassRow, MemberRow};
use tree_rule::TreeCounts;
use tree_words::token_count_at;

// The class row of the class given, if it has one.
fn home_row(given: Option<usize>) -> usize
    ensures { result ≡ home_row given }
{
    match given {
        Some(row) => row,
        None => 0,
    }
}

// The rows of all tokens of a tree file, and plans of the names that are added.
// The laws are named here, so that a goal which only a wrong program has is tried with them too.
#[tactic(auto, using(crate::proofs::Passing::passing))]
pub fn plan_nodes(
    out: &mut [u8],
    tree: &[u8],
    counts: TreeCounts,
    class: &[u8],
    index: &[u16],
    chains: &[u16],
    classes: &[ClassRow],
    members: &[MemberRow],
    pool: &[u8],
) -> Result<usize, NoRoom>
    requires { PlansReady classes.now members.now pool.now counts tree.now out.old
        × IndexBy Raw classes.now pool.now index.now
        × Chained classes.now pool.now members.now chains.now (length members.now) }
    ensures { PlansBy result classes.now members.now pool.now class.now counts tree.now
        out.old out.new }
{
    let given = last_raw(index, classes, pool, class);
    let home = home_row(given);
    let nodes = counts.nodes as usize;
    let mut names = 0;
    let mut first = 0;
    for node in 0..nodes {
        let count = token_count_at(tree, node) as usize;
        let note = node_note(
            out, index, chains, classes, members, pool, class, given, tree, counts, first, count,
        );
        let more = plan_node(
            out, tree, counts, node, first, count, note, home, chains, classes, members, pool,
            names,
        )?;
        names = more;
        first += count;
    }
    Ok(names)
}
