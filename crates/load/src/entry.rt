// The entry points.
ghost use Rattle.std.specs.Prelude.{◌≡◌, ◌≤◌, length, drop};
ghost use Rattle.text_places.specs.Lines.{lines};
ghost use Rattle.load_rule.specs.Loading.{is_loaded, lines_parse, lines_str, lent, answer_of, classes_left, members_left, pool_left, load_numbers, numbers_given, most_text};
ghost use Rattle.load.specs.Inner.Left.{Cleared, Left, Leaving};

use crate::fill::load_into;
use load_rule::{Fault, LoadError, Loaded, MOST_TEXT};
use table_rows::{
    ClassRow, MOST_CLASSES, MOST_MEMBERS, MOST_POOL, MemberRow, zero_bytes, zero_classes,
    zero_members,
};
use tables::lesser;
use text_utf8::{Broken, check_text};
use text_white::after_marks;

fn is_loaded(load: Result<Loaded, LoadError>) -> bool
    ensures { result ≡ is_loaded load }
{
    match load {
        Ok(Loaded { fates: _, names: _ }) => true,
        Err(LoadError::TooLong) => false,
        Err(
            LoadError::NotUtf8 {
                valid: _,
                length: _,
            },
        ) => false,
        Err(LoadError::Faulty(Fault { number: _, line: _ })) => false,
        Err(LoadError::NoClasses) => false,
        Err(LoadError::FewClassRows) => false,
        Err(LoadError::FewMemberRows) => false,
        Err(LoadError::ShortPool) => false,
    }
}

// All that is lent is made zero.
fn clear(classes: &mut [ClassRow], members: &mut [MemberRow], pool: &mut [u8])
    ensures { let c = length classes.old in
        let m = length members.old in
        let p = length pool.old in
        Cleared c m p classes.new members.new pool.new }
{
    zero_classes(classes);
    zero_members(members);
    zero_bytes(pool);
}

// The lines of a text, whose UTF-8 and length are checked. A longer lent slice counts as the largest number of rows or bytes.
fn load_lines(
    text: &[u8],
    classes: &mut [ClassRow],
    members: &mut [MemberRow],
    pool: &mut [u8],
) -> Result<Loaded, LoadError>
    requires { length text.now ≤ most_text }
    ensures { let c = length classes.old in
        let m = length members.old in
        let p = length pool.old in
        Left result (lines text.now) c m p classes.new members.new pool.new }
{
    clear(classes, members, pool);
    let class_rows = lesser(classes.len(), MOST_CLASSES);
    let member_rows = lesser(members.len(), MOST_MEMBERS);
    let bytes = lesser(pool.len(), MOST_POOL);
    let load = load_into(
        text,
        &mut classes[..class_rows],
        &mut members[..member_rows],
        &mut pool[..bytes],
    );
    if is_loaded(load) {
        return load;
    }
    clear(classes, members, pool);
    load
}

// The lines of a text from the place `start` on.
fn load_from(
    text: &[u8],
    start: usize,
    classes: &mut [ClassRow],
    members: &mut [MemberRow],
    pool: &mut [u8],
) -> Result<Loaded, LoadError>
    requires { start ≤ length text.now }
    ensures { let s = text.now in
        let c = length classes.old in
        let m = length members.old in
        let p = length pool.old in
        Leaving result s (lines (drop start s)) c m p classes.new members.new pool.new }
{
    if MOST_TEXT < text.len() {
        clear(classes, members, pool);
        return Err(LoadError::TooLong);
    }
    match check_text(text) {
        Ok(()) => load_lines(&text[start..], classes, members, pool),
        Err(Broken { at, length }) => {
            clear(classes, members, pool);
            Err(LoadError::NotUtf8 {
                valid: at as u32,
                length: length as u32,
            })
        }
    }
}

// Loads a text as it is.
pub fn parse_str(
    text: &[u8],
    classes: &mut [ClassRow],
    members: &mut [MemberRow],
    pool: &mut [u8],
) -> Result<Loaded, LoadError>
    ensures { let s = text.now in
        let ls = lines_str s in
        let room = lent (length classes.old) (length members.old) (length pool.old) in
        (result ≡ answer_of s ls room)
        × (classes.new ≡ classes_left s ls room)
        × (members.new ≡ members_left s ls room)
        × (pool.new ≡ pool_left s ls room)
        × (load_numbers result ≡ numbers_given s ls room) }
{
    load_from(text, 0, classes, members, pool)
}

// Loads a text without every leading U+FEFF.
pub fn parse(
    text: &[u8],
    classes: &mut [ClassRow],
    members: &mut [MemberRow],
    pool: &mut [u8],
) -> Result<Loaded, LoadError>
    ensures { let s = text.now in
        let ls = lines_parse s in
        let room = lent (length classes.old) (length members.old) (length pool.old) in
        (result ≡ answer_of s ls room)
        × (classes.new ≡ classes_left s ls room)
        × (members.new ≡ members_left s ls room)
        × (pool.new ≡ pool_left s ls room)
        × (load_numbers result ≡ numbers_given s ls room) }
{
    let start = after_marks(text);
    load_from(text, start, classes, members, pool)
}
