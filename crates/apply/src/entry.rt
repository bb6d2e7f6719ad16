// The entry point.
ghost use Rattle.std.specs.Prelude.{◌≡◌, length};
ghost use Rattle.table_rows.specs.Tables.{tables};
ghost use Rattle.apply_rule.specs.Applying.{applied_file, apply_answer, apply_output, applied_numbers, apply_numbers};
ghost use Rattle.apply_rule.specs.Inner.Plans.{mapping_in};
ghost use Rattle.apply.specs.Inner.Filled.{AcceptReady, fitting_answer, fitting_output};

use crate::fill::fill_output;
use apply_rule::{ApplyError, MOST_TREE};
use table_rows::{ClassRow, MemberRow, zero_bytes};
use tables::{Used, lesser, well_formed};
use tree_checks::well_formed_tree;

// Tables and tree are accepted. Only so much of the output counts as a file may have bytes.
fn apply_accepted(
    out: &mut [u8],
    class: &[u8],
    tree: &[u8],
    classes: &[ClassRow],
    members: &[MemberRow],
    pool: &[u8],
) -> Result<u32, ApplyError>
    requires { AcceptReady classes.now members.now tree.now out.old }
    ensures { let room = length out.old in
        let m = mapping_in classes.now members.now pool.now in
        let file = applied_file m class.now tree.now in
        (result ≡ fitting_answer room file) × (out.new ≡ fitting_output room file) }
{
    let room = lesser(out.len(), MOST_TREE);
    let Ok(end) = fill_output(&mut out[..room], class, tree, classes, members, pool) else {
        // only that part was written
        zero_bytes(&mut out[..room]);
        return Err(ApplyError::NoRoom);
    };
    Ok(end as u32)
}

// Applies a mapping to a tree file, for a class by its raw descriptor.
pub fn apply_to_smali(
    classes: &[ClassRow],
    members: &[MemberRow],
    pool: &[u8],
    used: Used,
    class: &[u8],
    tree: &[u8],
    out: &mut [u8],
) -> Result<u32, ApplyError>
    ensures { let lent = tables classes.now members.now pool.now in
        let given = class.now in
        let file = tree.now in
        let room = length out.old in
        (result ≡ apply_answer lent used given file room)
        × (out.new ≡ apply_output lent used given file room)
        × (applied_numbers result ≡ apply_numbers lent used given file room) }
{
    zero_bytes(out);
    if !well_formed(classes, members, pool, used) {
        return Err(ApplyError::Malformed);
    }
    if MOST_TREE < tree.len() {
        return Err(ApplyError::TooLong);
    }
    if !well_formed_tree(tree) {
        return Err(ApplyError::BadTree);
    }
    let class_count = used.classes as usize;
    let member_count = used.members as usize;
    apply_accepted(
        out,
        class,
        tree,
        &classes[..class_count],
        &members[..member_count],
        pool,
    )
}
