// What is written for a case.
use crate::hex;
use apply::apply_to_smali;
use apply_rule::ApplyError;
use load::parse;
use std::io;
use table_rows::{ClassRow, MemberRow};
use tables::Used;

fn refused(rt: &impl Print, number: usize) -> io::Result<()> {
    replay::words(rt, b"refused ")?;
    replay::decimal(rt, number)?;
    replay::words(rt, b"\n")
}

fn done(rt: &impl Print, output: &[u8]) -> io::Result<()> {
    replay::words(rt, b"applied ")?;
    replay::decimal(rt, output.len())?;
    replay::words(rt, b"\n")?;
    hex::say_bytes(rt, output)
}

// `apply_to_smali`, with an output of 1,024 bytes.
fn apply_tables(
    rt: &impl Print,
    classes: &[ClassRow],
    members: &[MemberRow],
    pool: &[u8],
    used: Used,
    class: &[u8],
    tree: &[u8],
) -> io::Result<()> {
    let mut out = [0u8; 1024];
    match apply_to_smali(classes, members, pool, used, class, tree, &mut out) {
        Ok(length) => {
            let end = length as usize;
            done(rt, &out[..end])
        }
        Err(ApplyError::Malformed) => refused(rt, 14),
        Err(ApplyError::TooLong) => refused(rt, 1),
        Err(ApplyError::BadTree) => refused(rt, 12),
        Err(ApplyError::NoRoom) => refused(rt, 13),
    }
}

// A mapping, loaded by `parse` into 16 class rows, 16 member rows and 512 pool bytes, and applied. Where it is refused nothing is used.
fn apply_mapping(rt: &impl Print, mapping: &[u8], class: &[u8], tree: &[u8]) -> io::Result<()> {
    let mut classes = [[0u32; 4]; 16];
    let mut members = [[0u32; 15]; 16];
    let mut pool = [0u8; 512];
    let Ok(loaded) = parse(mapping, &mut classes, &mut members, &mut pool) else {
        let none = Used {
            classes: 0,
            members: 0,
            pool: 0,
        };
        return apply_tables(rt, &classes, &members, &pool, none, class, tree);
    };
    let used = Used {
        classes: loaded.fates.class,
        members: loaded.fates.field + loaded.fates.method,
        pool: loaded.names,
    };
    apply_tables(rt, &classes, &members, &pool, used, class, tree)
}

// A tree file in digits, of at most 1,100 bytes.
fn apply_digits(rt: &impl Print, mapping: &[u8], class: &[u8], digits: &[u8]) -> io::Result<()> {
    let mut tree = [0u8; 1100];
    let size = replay::read_bytes(digits, 0, &mut tree);
    apply_mapping(rt, mapping, class, &tree[..size])
}

// The class given, the tree file, and the mapping.
pub fn answer(rt: &impl Print, asked: &[u8]) -> io::Result<()> {
    let Some(class) = text_places::next_line(asked, 0) else {
        return Ok(());
    };
    let Some(file) = text_places::next_line(asked, class.next) else {
        return Ok(());
    };
    apply_digits(
        rt,
        &asked[file.next..],
        &asked[..class.end],
        &asked[class.next..file.end],
    )
}
