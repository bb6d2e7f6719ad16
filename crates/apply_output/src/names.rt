// The new names: their texts, and their rows.
ghost use Rattle.std.specs.Prelude.{◌≤◌, length};
ghost use Rattle.table_pool.specs.Inner.Wrote.{WroteBy};
ghost use Rattle.apply_plans.specs.Inner.Entries.{planned_text};
ghost use Rattle.apply_output.specs.Inner.NewName.{BodyReady, NameReady, NameBy};
ghost use Rattle.apply_output.specs.Inner.Output.{NamesReady, NamesBy};

use crate::plan::{Plan, plan_at};
use crate::rows::put_name;
use apply_pieces::put_shown;
use table_pool::{NoRoom, put_text};
use table_rows::{ClassRow, Text};
use tables::text_in;
use tree_rule::TreeCounts;
use tree_words::{bytes_start, name_text};

// The text of the new name with a number, as it is planned.
fn put_body(
    out: &mut [u8],
    at: usize,
    number: usize,
    tree: &[u8],
    counts: TreeCounts,
    index: &[u16],
    classes: &[ClassRow],
    pool: &[u8],
) -> Result<usize, NoRoom>
    requires { (at ≤ length out.old) × BodyReady index.now classes.now pool.now counts tree.now number out.old }
    ensures { let body = planned_text classes.now pool.now counts tree.now out.old number in
        WroteBy result out.old at body out.new }
{
    let plan = plan_at(out, counts, number);
    match plan {
        Plan::InPool { place, length } => {
            put_text(out, at, text_in(pool, Text { place, length }))
        }
        Plan::Shown { name, start, row } => {
            let text = name_text(tree, counts, name);
            put_shown(out, at, text, start, row, index, classes, pool)
        }
    }
}

// The text and the row of a new name. The name bytes of the tree start at the place `bytes`, the texts of the names before it end at `end`.
fn put_new(
    out: &mut [u8],
    tree: &[u8],
    counts: TreeCounts,
    index: &[u16],
    classes: &[ClassRow],
    pool: &[u8],
    bytes: usize,
    number: usize,
    end: usize,
) -> Result<usize, NoRoom>
    requires { NameReady index.now classes.now pool.now counts tree.now bytes number «end» out.old }
    ensures { NameBy result classes.now pool.now counts tree.now bytes number «end»
        out.old out.new }
{
    let past = put_body(out, end, number, tree, counts, index, classes, pool)?;
    let place = end - bytes;
    let size = past - end;
    let at = bytes_start(counts) + 8 * number;
    put_name(out, at, place as u32, size as u32);
    Ok(past)
}

// The texts and the rows of the `count` new names: a row takes the place of the plan that was read there. Texts come last: where there is
// no room for one of them there is none for the output.
pub fn put_names(
    out: &mut [u8],
    tree: &[u8],
    counts: TreeCounts,
    index: &[u16],
    classes: &[ClassRow],
    pool: &[u8],
    count: usize,
) -> Result<usize, NoRoom>
    requires { NamesReady index.now classes.now pool.now counts tree.now count out.old }
    ensures { NamesBy result classes.now pool.now counts tree.now count out.old out.new }
{
    let bytes = bytes_start(counts) + 8 * count;
    let mut end = bytes + counts.bytes as usize;
    for name in 0..count {
        let past = put_new(out, tree, counts, index, classes, pool, bytes, name, end)?;
        end = past;
    }
    Ok(end)
}
