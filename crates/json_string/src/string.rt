// Strings (RFC 8259, section 7), char by char.
ghost use Rattle.std.specs.Prelude.{◌≡◌, ◌+◌, ◌≤◌, ◌<◌, length, drop};
ghost use Rattle.json_grammar.specs.Reader.{hexdig, hex_value, hex4, second, unicode, escape, piece_of, chars_from};
ghost use Rattle.json_string.specs.Inner.Means.{Means};
ghost use Rattle.json_string.specs.Inner.Pieces.{PieceMeans, short_byte};

use crate::plain::{is_plain, plain_end};

// What stands at a place inside a string, and the place after it.
#[derive(Clone, Copy)]
pub enum Piece {
    // A char that stands for one byte.
    Byte(u8, usize),
    // A char that stands for a code point above 7F, in UTF-8.
    Code(u32, usize),
    // The quotation mark at the end.
    Closes(usize),
    Wrong,
}

// The value of a hexadecimal digit, 16 where it is none.
fn hex_digit(b: u8) -> u32
    ensures { result ≡ hexdig b }
{
    if b < b'0' {
        return 16;
    }
    if b <= b'9' {
        return (b - b'0') as u32;
    }
    if b < b'A' {
        return 16;
    }
    if b <= b'F' {
        return (b - 0x37) as u32;
    }
    if b < b'a' {
        return 16;
    }
    if b <= b'f' {
        return (b - 0x57) as u32;
    }
    16
}

// The value of four hexadecimal digits, 65536 where one is none.
fn hex_value(a: u32, b: u32, c: u32, d: u32) -> u32
    requires { (a ≤ 16) × (b ≤ 16) × (c ≤ 16) × (d ≤ 16) }
    ensures { result ≡ hex_value a b c d }
{
    if a == 16 {
        return 65536;
    }
    if b == 16 {
        return 65536;
    }
    if c == 16 {
        return 65536;
    }
    if d == 16 {
        return 65536;
    }
    ((a * 16 + b) * 16 + c) * 16 + d
}

// Four hexadecimal digits at a place.
fn hex4_at(s: &[u8], at: usize) -> u32
    requires { at ≤ length s.now }
    ensures { result ≡ hex4 (drop at s.now) }
{
    if s.len() - at < 4 {
        return 65536;
    }
    hex_value(
        hex_digit(s[at]),
        hex_digit(s[at + 1]),
        hex_digit(s[at + 2]),
        hex_digit(s[at + 3]),
    )
}

// The escape of a low surrogate, after one of a high surrogate that starts at `base`: together they are one code point.
fn second_at(s: &[u8], base: usize, high: u32) -> Piece
    requires { (base + 6 ≤ length s.now) × (0xD800 ≤ high) × (high ≤ 0xDBFF) }
    ensures { PieceMeans s.now base result (second high (drop (base + 6) s.now)) }
{
    let at = base + 6;
    if s.len() - at < 2 {
        return Piece::Wrong;
    }
    if s[at] != b'\\' {
        return Piece::Wrong;
    }
    if s[at + 1] != b'u' {
        return Piece::Wrong;
    }
    let low = hex4_at(s, at + 2);
    if low < 0xDC00 {
        return Piece::Wrong;
    }
    if 0xDFFF < low {
        return Piece::Wrong;
    }
    Piece::Code(0x10000 + (high - 0xD800) * 0x400 + (low - 0xDC00), at + 6)
}

// The escape of a code point by four digits. The char starts at `base`, and its digits two bytes later.
#[tactic(auto, using(crate::proofs::PieceLaws::unicodes))]
fn unicode_at(s: &[u8], base: usize) -> Piece
    requires { base + 2 ≤ length s.now }
    ensures { PieceMeans s.now base result (unicode (drop (base + 2) s.now)) }
{
    let code = hex4_at(s, base + 2);
    if code == 65536 {
        return Piece::Wrong;
    }
    if code < 0x80 {
        return Piece::Byte(code as u8, base + 6);
    }
    if code < 0xD800 {
        return Piece::Code(code, base + 6);
    }
    if code <= 0xDBFF {
        return second_at(s, base, code);
    }
    if code <= 0xDFFF {
        return Piece::Wrong;
    }
    Piece::Code(code, base + 6)
}

// The byte that an escape of two characters stands for, by its second one; 0 where there is no such escape.
fn short_byte(letter: u8) -> u8
    ensures { result ≡ short_byte letter }
{
    if letter == b'"' {
        return 0x22;
    }
    if letter == b'\\' {
        return 0x5C;
    }
    if letter == b'/' {
        return 0x2F;
    }
    if letter == b'b' {
        return 0x08;
    }
    if letter == b'f' {
        return 0x0C;
    }
    if letter == b'n' {
        return 0x0A;
    }
    if letter == b'r' {
        return 0x0D;
    }
    if letter == b't' {
        return 0x09;
    }
    0
}

// A char with an escape, which starts at `base`.
fn escape_at(s: &[u8], base: usize) -> Piece
    requires { base < length s.now }
    ensures { PieceMeans s.now base result (escape (drop (base + 1) s.now)) }
{
    let at = base + 1;
    if s.len() <= at {
        return Piece::Wrong;
    }
    if s[at] == b'u' {
        return unicode_at(s, base);
    }
    let byte = short_byte(s[at]);
    if byte == 0 {
        return Piece::Wrong;
    }
    Piece::Byte(byte, at + 1)
}

// What stands at a place inside a string.
#[tactic(auto, using(crate::proofs::PieceLaws::pieces_here))]
fn every_piece_at(s: &[u8], at: usize) -> Piece
    ensures { PieceMeans s.now at result (piece_of (drop at s.now)) }
{
    if s.len() <= at {
        return Piece::Wrong;
    }
    let b = s[at];
    if b == b'"' {
        return Piece::Closes(at + 1);
    }
    if b == b'\\' {
        return escape_at(s, at);
    }
    if 0x20 <= b {
        return Piece::Byte(b, at + 1);
    }
    Piece::Wrong
}

// The same. Most chars are plain: no more is asked of them, and the compiler puts that test where this is called.
pub fn piece_at(s: &[u8], at: usize) -> Piece
    ensures { PieceMeans s.now at result (piece_of (drop at s.now)) }
{
    if s.len() <= at {
        return Piece::Wrong;
    }
    let b = s[at];
    if is_plain(b) {
        return Piece::Byte(b, at + 1);
    }
    every_piece_at(s, at)
}

// The place after a string whose first char stands at `start`.
pub fn string_end(s: &[u8], start: usize) -> Option<usize>
    ensures { Means s.now result (chars_from 0 (drop start s.now)) }
{
    let mut at = plain_end(s, start);
    while at < s.len() {
        // most chars: no more is asked
        if is_plain(s[at]) {
            at += 1;
            continue;
        }
        match every_piece_at(s, at) {
            Piece::Byte(_, next) => {
                at = next;
            }
            Piece::Code(_, next) => {
                at = next;
            }
            Piece::Closes(next) => {
                return Some(next);
            }
            Piece::Wrong => {
                return None;
            }
        }
    }
    None
}
