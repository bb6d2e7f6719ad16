// The tokens of one node.
ghost use Rattle.std.specs.Prelude.{◌≡◌, eqb, length};
ghost use Rattle.ground.specs.Choice.{pick};
ghost use Rattle.name_index.specs.Inner.Chains.{Chained};
ghost use Rattle.apply_plans.specs.Inner.Plan.{plan_at};
ghost use Rattle.apply_plans.specs.Inner.Put.{PutBy};
ghost use Rattle.apply_plans.specs.Inner.Tokens.{TurnReady, TokensReady, TokensBy};

use crate::plan::token_plan;
use crate::rows::put_planned;
use table_pool::NoRoom;
use table_rows::{ClassRow, MemberRow};
use tree_rule::TreeCounts;

// The row of a token, and the plan of a name that it adds.
fn plan_token(
    out: &mut [u8],
    tree: &[u8],
    counts: TreeCounts,
    token: usize,
    named: u32,
    context: u32,
    home: usize,
    chains: &[u16],
    classes: &[ClassRow],
    members: &[MemberRow],
    pool: &[u8],
    names: usize,
) -> Result<usize, NoRoom>
    requires { TurnReady classes.now members.now pool.now counts tree.now home context named token names out.old
        × Chained classes.now pool.now members.now chains.now (length members.now) }
    ensures { let f = tree.now in
        let old = out.old in
        let plan = plan_at classes.now members.now pool.now counts f old home context named token in
        PutBy result counts f token plan names old out.new }
{
    let plan = token_plan(
        out, tree, counts, token, named, context, home, chains, classes, members, pool,
    );
    put_planned(out, tree, counts, token, plan, names)
}

// The number of the row whose name a token shows: only the name of the node's member shows one.
fn own_number(token: usize, member: usize, named: u32) -> u32
    ensures { result ≡ pick (eqb token member) named 0 }
{
    if token == member {
        return named;
    }
    0
}

// All tokens of a node, from token `first` on: `member` is the name of its member, and `named` the number of the row that this shows.
pub fn plan_tokens(
    out: &mut [u8],
    tree: &[u8],
    counts: TreeCounts,
    first: usize,
    count: usize,
    member: usize,
    named: u32,
    context: u32,
    home: usize,
    chains: &[u16],
    classes: &[ClassRow],
    members: &[MemberRow],
    pool: &[u8],
    names: usize,
) -> Result<usize, NoRoom>
    requires { TokensReady classes.now members.now pool.now counts tree.now home context named first count names out.old
        × Chained classes.now pool.now members.now chains.now (length members.now) }
    ensures { TokensBy result classes.now members.now pool.now counts tree.now home context member named
        first count names out.old out.new }
{
    let mut planned = names;
    for token in 0..count {
        let at = first + token;
        let own = own_number(at, member, named);
        let more = plan_token(
            out, tree, counts, at, own, context, home, chains, classes, members, pool, planned,
        )?;
        planned = more;
    }
    Ok(planned)
}
