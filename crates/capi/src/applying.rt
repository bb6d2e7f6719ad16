// Applying a mapping to a tree file.
ghost use Rattle.std.specs.Prelude.{◌≡◌, length};
ghost use Rattle.table_rows.specs.Tables.{tables};
ghost use Rattle.apply_rule.specs.Applying.{apply_output, applied_numbers, apply_numbers};
ghost use Rattle.tables.specs.Check.{used_by};

use apply::apply_to_smali;
use apply_rule::ApplyError;
use table_rows::{ClassRow, MemberRow};
use tables::used_of;

fn applied_numbers(applied: Result<u32, ApplyError>) -> [u32; 2]
    ensures { result ≡ applied_numbers applied }
{
    match applied {
        Ok(length) => [0, length],
        Err(ApplyError::Malformed) => [14, 0],
        Err(ApplyError::TooLong) => [1, 0],
        Err(ApplyError::BadTree) => [12, 0],
        Err(ApplyError::NoRoom) => [13, 0],
    }
}

// A mapping applied to a tree file, for a class by its raw descriptor.
#[unsafe(no_mangle)]
pub extern "C" fn clumarief_apply(
    classes: &[ClassRow],
    members: &[MemberRow],
    pool: &[u8],
    used: &[u32; 3],
    class: &[u8],
    tree: &[u8],
    out: &mut [u8],
    answer: &mut [u32; 2],
)
    ensures { let lent = tables classes.now members.now pool.now in
        let counts = used_by used.now in
        let given = class.now in
        let file = tree.now in
        let room = length out.old in
        (answer.new ≡ apply_numbers lent counts given file room)
        × (out.new ≡ apply_output lent counts given file room) }
{
    let applied = apply_to_smali(classes, members, pool, used_of(*used), class, tree, out);
    *answer = applied_numbers(applied);
}
