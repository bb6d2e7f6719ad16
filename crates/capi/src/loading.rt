// Loading.
ghost use Rattle.std.specs.Prelude.{◌≡◌, length};
ghost use Rattle.load_rule.specs.Loading.{lines_parse, lines_str, lent, answer_of, classes_left, members_left, pool_left};
ghost use Rattle.capi.specs.Answers.{refusal_numbers, answer_numbers};

use load::{parse, parse_str};
use load_rule::{Fault, LoadError, Loaded};
use table_rows::{ClassRow, MemberRow};

// The answer of a refusal: its number, its place and a length.
fn refusal(number: u32, place: u32, length: u32) -> [u32; 24]
    ensures { result ≡ refusal_numbers number place length }
{
    [
        number, place, length, 0, 0, 0, 0, 0, 0, 0, 0, 0, 0, 0, 0, 0, 0, 0, 0, 0, 0, 0, 0, 0,
    ]
}

fn load_numbers(load: Result<Loaded, LoadError>) -> [u32; 24]
    ensures { result ≡ answer_numbers load }
{
    match load {
        Ok(Loaded { fates, names }) => [
            0,
            0,
            0,
            fates.lines,
            fates.blank,
            fates.applied,
            fates.idle,
            fates.class,
            fates.field,
            fates.method,
            fates.short,
            names,
            0,
            0,
            0,
            0,
            0,
            0,
            0,
            0,
            0,
            0,
            0,
            0,
        ],
        Err(LoadError::TooLong) => refusal(1, 0, 0),
        Err(LoadError::NotUtf8 { valid, length }) => refusal(2, valid, length),
        Err(LoadError::Faulty(Fault { number, line })) => refusal(number, line, 0),
        Err(LoadError::NoClasses) => refusal(8, 0, 0),
        Err(LoadError::FewClassRows) => refusal(9, 0, 0),
        Err(LoadError::FewMemberRows) => refusal(10, 0, 0),
        Err(LoadError::ShortPool) => refusal(11, 0, 0),
    }
}

// Loads a text without every leading U+FEFF.
#[unsafe(no_mangle)]
pub extern "C" fn clumarief_parse(
    text: &[u8],
    classes: &mut [ClassRow],
    members: &mut [MemberRow],
    pool: &mut [u8],
    answer: &mut [u32; 24],
)
    ensures { let s = text.now in
        let ls = lines_parse s in
        let room = lent (length classes.old) (length members.old) (length pool.old) in
        (answer.new ≡ answer_numbers (answer_of s ls room))
        × (classes.new ≡ classes_left s ls room)
        × (members.new ≡ members_left s ls room)
        × (pool.new ≡ pool_left s ls room) }
{
    let load = parse(text, classes, members, pool);
    *answer = load_numbers(load);
}

// Loads a text as it is.
#[unsafe(no_mangle)]
pub extern "C" fn clumarief_parse_str(
    text: &[u8],
    classes: &mut [ClassRow],
    members: &mut [MemberRow],
    pool: &mut [u8],
    answer: &mut [u32; 24],
)
    ensures { let s = text.now in
        let ls = lines_str s in
        let room = lent (length classes.old) (length members.old) (length pool.old) in
        (answer.new ≡ answer_numbers (answer_of s ls room))
        × (classes.new ≡ classes_left s ls room)
        × (members.new ≡ members_left s ls room)
        × (pool.new ≡ pool_left s ls room) }
{
    let load = parse_str(text, classes, members, pool);
    *answer = load_numbers(load);
}
