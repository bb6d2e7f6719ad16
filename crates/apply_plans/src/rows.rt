// The row of a token, by its plan, and the plan of a name that it adds.
ghost use Rattle.std.specs.Prelude.{◌≡◌, ◌+◌, ◌≤◌, length};
ghost use Rattle.ground.specs.Put.{put};
ghost use Rattle.tree_rule.specs.Words.{word_at};
ghost use Rattle.tree_rule.specs.Files.{three_words};
ghost use Rattle.apply_plans.specs.Inner.Put.{NameReady, NamePutBy, PutReady, PutBy};

use crate::plan::Plan;
use table_pool::NoRoom;
use tree_rule::TreeCounts;
use tree_words::{bytes_start, put_word, tokens_start, word_at};

// The row of the token at a place, with what it shows.
fn put_row(out: &mut [u8], tree: &[u8], at: usize, shown: u32)
    requires { (at + 12 ≤ length tree.now) × (at + 12 ≤ length out.old) }
    ensures { let f = tree.now in
        out.new ≡ put out.old at (three_words (word_at f at) (word_at f (at + 4)) shown) }
{
    put_word(out, at, word_at(tree, at));
    put_word(out, at + 4, word_at(tree, at + 4));
    put_word(out, at + 8, shown);
}

// The row of a token that adds a name, and the two numbers of the plan.
fn plan_name(
    out: &mut [u8],
    tree: &[u8],
    counts: TreeCounts,
    at: usize,
    a: u32,
    b: u32,
    names: usize,
) -> Result<usize, NoRoom>
    requires { NameReady counts tree.now at names out.old }
    ensures { NamePutBy result counts tree.now at a b names out.old out.new }
{
    let place = bytes_start(counts) + 8 * names;
    if out.len() < place + 8 {
        return Err(NoRoom);
    }
    put_row(out, tree, at, counts.names + names as u32);
    put_word(out, place, a);
    put_word(out, place + 4, b);
    Ok(names + 1)
}

// The row of a token by its plan, where `names` are planned before.
pub fn put_planned(
    out: &mut [u8],
    tree: &[u8],
    counts: TreeCounts,
    token: usize,
    plan: Plan,
    names: usize,
) -> Result<usize, NoRoom>
    requires { PutReady counts tree.now token plan names out.old }
    ensures { PutBy result counts tree.now token plan names out.old out.new }
{
    let at = tokens_start(counts) + 12 * token;
    match plan {
        Plan::Stays => {
            let shown = word_at(tree, at + 8);
            put_row(out, tree, at, shown);
            Ok(names)
        }
        Plan::Line(line) => {
            put_row(out, tree, at, line);
            Ok(names)
        }
        Plan::Text { place, length } => plan_name(out, tree, counts, at, place + 1, length, names),
        Plan::Shown(name) => plan_name(out, tree, counts, at, 0, name, names),
    }
}
