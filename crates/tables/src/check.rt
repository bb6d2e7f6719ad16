// The check for refusal 14, "tables malformed". Every function takes any rows, any pool and any counts.
ghost use Rattle.std.specs.Prelude.{◌≡◌};
ghost use Rattle.text_utf8.specs.Inner.Runs.{AsciiTo};
ghost use Rattle.tables.specs.Check.{used_by, text_fine, class_fine, numbers_fine, texts_fine, member_fine, all_of, counts_fine, well_formed};

use crate::texts::text_in;
use table_rows::{
    ClassRow, MOST_CLASSES, MOST_MEMBERS, MOST_POOL, Member, MemberRow, Text, range_flag,
    unpack_class, unpack_member,
};
use text_utf8::{ascii_start, is_utf8};

// The tables are malformed.
#[derive(Clone, Copy, Debug, PartialEq, Eq)]
pub struct Malformed;

// How many class rows, member rows and pool bytes are used.
#[derive(Clone, Copy)]
pub struct Used {
    pub classes: u32,
    pub members: u32,
    pub pool: u32,
}

// The same, as C lends it.
pub fn used_of(used: [u32; 3]) -> Used
    ensures { result ≡ used_by used }
{
    Used {
        classes: used[0],
        members: used[1],
        pool: used[2],
    }
}

// A text does not reach past the used pool, and is UTF-8. The pool is ASCII up to the place `ascii`: a text that ends there is not read.
fn text_fine(pool: &[u8], ascii: usize, used: Used, text: Text) -> bool
    requires { AsciiTo pool.now 0 ascii }
    ensures { result ≡ text_fine pool.now used text }
{
    let end = text.place as usize + text.length as usize;
    if (used.pool as usize) < end {
        return false;
    }
    if end <= ascii {
        return true;
    }
    is_utf8(text_in(pool, text))
}

fn class_fine(pool: &[u8], ascii: usize, used: Used, row: ClassRow) -> bool
    requires { AsciiTo pool.now 0 ascii }
    ensures { result ≡ class_fine pool.now used row }
{
    let class = unpack_class(row);
    if !text_fine(pool, ascii, used, class.raw) {
        return false;
    }
    text_fine(pool, ascii, used, class.display)
}

// The class row, the kind and the flag of a member row are in range.
fn numbers_fine(used: Used, row: MemberRow) -> bool
    ensures { result ≡ numbers_fine used row }
{
    let member = unpack_member(row);
    if used.classes <= member.class {
        return false;
    }
    if 1 < member.kind {
        return false;
    }
    range_flag(row) <= 2
}

fn texts_fine(pool: &[u8], ascii: usize, used: Used, member: Member) -> bool
    requires { AsciiTo pool.now 0 ascii }
    ensures { result ≡ texts_fine pool.now used member }
{
    if !text_fine(pool, ascii, used, member.raw_name) {
        return false;
    }
    if !text_fine(pool, ascii, used, member.descriptor) {
        return false;
    }
    if !text_fine(pool, ascii, used, member.name) {
        return false;
    }
    text_fine(pool, ascii, used, member.owner)
}

fn member_fine(pool: &[u8], ascii: usize, used: Used, row: MemberRow) -> bool
    requires { AsciiTo pool.now 0 ascii }
    ensures { result ≡ member_fine pool.now used row }
{
    if !numbers_fine(used, row) {
        return false;
    }
    texts_fine(pool, ascii, used, unpack_member(row))
}

fn classes_fine(classes: &[ClassRow], pool: &[u8], ascii: usize, used: Used) -> bool
    requires { AsciiTo pool.now 0 ascii }
    ensures { result ≡ all_of (class_fine pool.now used) classes.now }
{
    for row in classes {
        if !class_fine(pool, ascii, used, *row) {
            return false;
        }
    }
    true
}

fn members_fine(members: &[MemberRow], pool: &[u8], ascii: usize, used: Used) -> bool
    requires { AsciiTo pool.now 0 ascii }
    ensures { result ≡ all_of (member_fine pool.now used) members.now }
{
    for row in members {
        if !member_fine(pool, ascii, used, *row) {
            return false;
        }
    }
    true
}

// No count is above what is lent, where a longer slice counts as the most there may be.
fn counts_fine(classes: usize, members: usize, pool: usize, used: Used) -> bool
    ensures { result ≡ counts_fine classes members pool used }
{
    if classes.min(MOST_CLASSES) < used.classes as usize {
        return false;
    }
    if members.min(MOST_MEMBERS) < used.members as usize {
        return false;
    }
    used.pool as usize <= pool.min(MOST_POOL)
}

// Whether tables are well formed; where they are not, the answer to the caller is 14.
pub fn well_formed(classes: &[ClassRow], members: &[MemberRow], pool: &[u8], used: Used) -> bool
    ensures { result ≡ well_formed classes.now members.now pool.now used }
{
    if !counts_fine(classes.len(), members.len(), pool.len(), used) {
        return false;
    }
    let bytes = used.pool as usize;
    let ascii = ascii_start(&pool[..bytes]);
    let class_rows = used.classes as usize;
    if !classes_fine(&classes[..class_rows], pool, ascii, used) {
        return false;
    }
    let member_rows = used.members as usize;
    members_fine(&members[..member_rows], pool, ascii, used)
}
