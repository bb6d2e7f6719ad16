// C functions over look-ups by an index, for differential runs and timings.
#![tactic(auto)]

ghost use Rattle.std.specs.Prelude.{◌≡◌, ◌≤◌, length};
ghost use Rattle.table_rows.specs.Rows.{most_members};
ghost use Rattle.table_rows.specs.Tables.{tables};
ghost use Rattle.tables.specs.Back.{read_back};
ghost use Rattle.tables.specs.Check.{used_by};
ghost use Rattle.name_rule.specs.MemberNames.{key};
ghost use Rattle.name_members.specs.declared.rows.Asked.TheVariants.{Method};
ghost use Rattle.name_members.specs.MemberAnswers.{row_asked, answering};
ghost use Rattle.name_probes.specs.Answers.{row_number, answer_number};

use name_index::{MEMBER_INDEX, chained_row, index_members};
use table_rows::{ClassRow, MemberRow};
use tables::{last_with_raw, used_of, well_formed};

fn row_number(found: Option<usize>) -> u64
    ensures { result ≡ row_number found }
{
    match found {
        Some(row) => row as u64 % 4294967296 + 2,
        None => 1,
    }
}

// The row of a method, by an index that is made for this one call.
fn indexed_row(
    classes: &[ClassRow],
    members: &[MemberRow],
    pool: &[u8],
    owner: &[u8],
    name: &[u8],
    descriptor: &[u8],
) -> Option<usize>
    requires { length members.now ≤ most_members }
    ensures { let p = pool.now in
        let k = key owner.now name.now descriptor.now in
        result ≡ row_asked Method (read_back classes.now p) k members.now p }
{
    let class = last_with_raw(classes, pool, owner)?;
    let mut index = [0; MEMBER_INDEX];
    index_members(&mut index, classes, members, pool);
    chained_row(
        &index, classes, members, pool, class, name, descriptor, false,
    )
}

// 0 where the tables are malformed, 1 where the method is unknown, else the number of its row and 2.
#[unsafe(no_mangle)]
pub extern "C" fn clumarief_probe_method_row(
    classes: &[ClassRow],
    members: &[MemberRow],
    pool: &[u8],
    used: &[u32; 3],
    owner: &[u8],
    name: &[u8],
    descriptor: &[u8],
) -> u64
    ensures { let lent = tables classes.now members.now pool.now in
        let k = key owner.now name.now descriptor.now in
        result ≡ answer_number (answering Method lent (used_by used.now) k) }
{
    let counts = used_of(*used);
    if !well_formed(classes, members, pool, counts) {
        return 0;
    }
    let class_count = counts.classes as usize;
    let member_count = counts.members as usize;
    let class_rows = &classes[..class_count];
    let member_rows = &members[..member_count];
    row_number(indexed_row(class_rows, member_rows, pool, owner, name, descriptor))
}
