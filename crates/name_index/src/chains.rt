// An index of member rows, for whoever looks up often: a number for each mark of a member, the last row with it, and behind these a link
// from each row to the last one before it with the same mark. One table, so that no function takes two.
ghost use Rattle.std.specs.Prelude.{◌≡◌, [], ◌+◌, ◌<◌, ◌≤◌, length, get_or, replicate};
ghost use Rattle.table_rows.specs.Rows.{unpack_class, most_members};
ghost use Rattle.tables.specs.Back.{text_in};
ghost use Rattle.table_index.specs.Inner.Marks.{mark_count, mark_from};
ghost use Rattle.name_index.specs.Inner.Chains.{member_index_size, chained, member_mark, class_mark, Chained};

use table_index::mark_from;
use table_rows::{ClassRow, Member, MemberRow, unpack_class, unpack_member};
use tables::text_in;

// How many marks there are, and the numbers of the table: one for each mark, one for each row.
pub const MARKS: usize = 8192;

pub const MEMBER_INDEX: usize = 40960;

// The raw descriptor of a class row; nothing where there is no such row.
pub fn raw_of<'a>(classes: &[ClassRow], pool: &'a [u8], row: usize) -> &'a [u8]
    ensures { result.now ≡ text_in pool.now (unpack_class (get_or classes.now row [])).raw }
{
    if row < classes.len() {
        return text_in(pool, unpack_class(classes[row]).raw);
    }
    &pool[..0]
}

// The mark of a member, by the raw descriptor of its class, its raw name and its raw descriptor.
pub fn member_mark(raw: &[u8], name: &[u8], descriptor: &[u8]) -> usize
    ensures { result ≡ member_mark raw.now name.now descriptor.now }
{
    let class = mark_from(0, raw);
    let named = mark_from(class, name);
    mark_from(named, descriptor)
}

// The mark of the raw descriptor of a class row, kept while member rows of that class follow each other.
#[derive(Clone, Copy)]
pub struct ClassMark {
    pub class: u32,
    pub mark: usize,
}

fn class_mark(classes: &[ClassRow], pool: &[u8], class: u32) -> ClassMark
    ensures { (result.class ≡ class) × (result.mark ≡ class_mark classes.now pool.now class) }
{
    let mark = mark_from(0, raw_of(classes, pool, class as usize));
    ClassMark { class, mark }
}

fn mark_for(classes: &[ClassRow], pool: &[u8], kept: ClassMark, class: u32) -> ClassMark
    requires { kept.mark ≡ class_mark classes.now pool.now kept.class }
    ensures { (result.class ≡ class) × (result.mark ≡ class_mark classes.now pool.now class) }
{
    if class == kept.class {
        return kept;
    }
    class_mark(classes, pool, class)
}

// The mark of a member row, by that of its class.
fn row_mark(pool: &[u8], class: usize, member: Member) -> usize
    requires { class < mark_count }
    ensures { let p = pool.now in
        result ≡ mark_from (mark_from class (text_in p member.raw_name)) (text_in p member.descriptor) }
{
    let named = mark_from(class, text_in(pool, member.raw_name));
    mark_from(named, text_in(pool, member.descriptor))
}

// One row more, of a mark: the last with it, linked to the one that was the last before.
fn chain_row(index: &mut [u16], mark: usize, row: usize)
    requires { (length index.old ≡ member_index_size) × (mark < mark_count) × (row < most_members) }
    ensures { index.new ≡ chained index.old mark row }
{
    let link = index[mark];
    let number = row + 1;
    index[MARKS + row] = link;
    index[mark] = number as u16;
}

// One row more, by the mark that is kept; answers the one to keep on.
fn index_row(
    index: &mut [u16],
    classes: &[ClassRow],
    members: &[MemberRow],
    pool: &[u8],
    row: usize,
    kept: ClassMark,
) -> ClassMark
    requires { Chained classes.now pool.now members.now index.old row
        × (row < length members.now)
        × (kept.mark ≡ class_mark classes.now pool.now kept.class) }
    ensures { Chained classes.now pool.now members.now index.new (row + 1)
        × (result.mark ≡ class_mark classes.now pool.now result.class) }
{
    let member = unpack_member(members[row]);
    let class = mark_for(classes, pool, kept, member.class);
    let mark = row_mark(pool, class.mark, member);
    chain_row(index, mark, row);
    class
}

// All rows.
pub fn index_members(index: &mut [u16], classes: &[ClassRow], members: &[MemberRow], pool: &[u8])
    requires { (index.old ≡ replicate member_index_size 0) × (length members.now ≤ most_members) }
    ensures { let rows = members.now in
        Chained classes.now pool.now rows index.new (length rows) }
{
    let mut kept = class_mark(classes, pool, 0);
    for row in 0..members.len() {
        kept = index_row(index, classes, members, pool, row, kept);
    }
}
