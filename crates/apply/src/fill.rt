// The passes over a tree file: notes of its names, plans of its tokens, the output.
ghost use Rattle.std.specs.Prelude.{length};
ghost use Rattle.tables.specs.declared.search.Side.TheVariants.{Raw};
ghost use Rattle.table_index.specs.Inner.Index.{IndexBy};
ghost use Rattle.name_index.specs.Inner.Chains.{Chained};
ghost use Rattle.apply_rule.specs.Applying.{applied_file};
ghost use Rattle.apply_rule.specs.Inner.Plans.{mapping_in, changes_in, laid_out};
ghost use Rattle.apply.specs.Inner.Filled.{PassReady, FillReady, OutputFilledBy};

use apply_output::write_output;
use apply_pieces::note_names;
use apply_plans::plan_nodes;
use name_index::{MEMBER_INDEX, index_members};
use table_index::{INDEX, index_classes};
use table_pool::NoRoom;
use table_rows::{ClassRow, MemberRow};
use tables::Side;
use tree_rule::TreeCounts;
use tree_words::counts_in;

// All passes, by both indexes.
fn pass(
    out: &mut [u8],
    tree: &[u8],
    counts: TreeCounts,
    class: &[u8],
    index: &[u16],
    chains: &[u16],
    classes: &[ClassRow],
    members: &[MemberRow],
    pool: &[u8],
) -> Result<usize, NoRoom>
    requires { PassReady classes.now members.now counts tree.now out.old
        × IndexBy Raw classes.now pool.now index.now
        × Chained classes.now pool.now members.now chains.now (length members.now) }
    ensures { let f = tree.now in
        let cs = changes_in classes.now members.now pool.now class.now counts f in
        OutputFilledBy result (laid_out counts f cs) out.old out.new }
{
    note_names(out, tree, counts, index, classes, pool);
    let count = plan_nodes(
        out, tree, counts, class, index, chains, classes, members, pool,
    )?;
    write_output(out, tree, counts, index, classes, pool, count)
}

// The file with the mapping applied, into an output that is zero. A file never gets shorter.
pub fn fill_output(
    out: &mut [u8],
    class: &[u8],
    tree: &[u8],
    classes: &[ClassRow],
    members: &[MemberRow],
    pool: &[u8],
) -> Result<usize, NoRoom>
    requires { FillReady classes.now members.now tree.now out.old }
    ensures { let m = mapping_in classes.now members.now pool.now in
        OutputFilledBy result (applied_file m class.now tree.now) out.old out.new }
{
    if out.len() < tree.len() {
        return Err(NoRoom);
    }
    let counts = counts_in(tree);
    let mut index = [0u16; INDEX];
    index_classes(&mut index, Side::Raw, classes, pool);
    let mut chains = [0u16; MEMBER_INDEX];
    index_members(&mut chains, classes, members, pool);
    pass(
        out, tree, counts, class, &index, &chains, classes, members, pool,
    )
}
