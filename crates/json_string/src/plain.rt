// Plain bytes of a string: each is a char by itself. Long runs of them go by blocks of 16.
ghost use Rattle.std.specs.Prelude.{◌≡◌, true, ℕ, ◌+◌, ◌≤◌, ◌<◌, min, length, get_or, drop};
ghost use Rattle.json_string.specs.Inner.Plain.{is_plain, PlainTo, plain_run};

use text_places::marked;

// Whether a byte alone tells that it is a char: it ends no string, starts no escape and is no control character.
pub fn is_plain(octet: u8) -> bool
    ensures { result ≡ is_plain octet }
{
    if octet == b'"' {
        return false;
    }
    if octet == b'\\' {
        return false;
    }
    0x20 <= octet
}

// The lesser of two bytes.
fn lesser(x: u8, y: u8) -> u8
    ensures { result ≡ min x y }
{
    if y < x {
        return y;
    }
    x
}

// Whether the 16 bytes from a place on are plain; promised is only what passing the block needs, that each is where the answer is yes.
// Each running value has its own vector instruction, which a test of byte after byte would not have.
fn block_is_plain(s: &[u8], at: usize) -> bool
    requires { at + 16 ≤ length s.now }
    ensures { result ≡ true → (k : ℕ) → k < 16 → is_plain (get_or s.now (at + k) 0) ≡ true }
{
    let mut ends = false;
    let mut escapes = false;
    let mut least = 0xFF;
    for i in 0..16 {
        ends = marked(ends, s[at + i], b'"');
        escapes = marked(escapes, s[at + i], b'\\');
        least = lesser(least, s[at + i]);
    }
    if ends {
        return false;
    }
    if escapes {
        return false;
    }
    0x20 <= least
}

// A place up to which all bytes from `from` on are plain, by whole blocks.
fn plain_blocks(s: &[u8], from: usize) -> usize
    requires { from ≤ length s.now }
    ensures { PlainTo s.now from result }
{
    let mut at = from;
    while 16 <= s.len() - at {
        if block_is_plain(s, at) {
            at += 16;
            continue;
        }
        return at;
    }
    at
}

// The first place from `start` on at which no plain byte stands, byte by byte.
fn plain_bytes(s: &[u8], start: usize) -> usize
    ensures { result ≡ start + plain_run (drop start s.now) }
{
    let mut at = start;
    while at < s.len() {
        if is_plain(s[at]) {
            at += 1;
            continue;
        }
        return at;
    }
    at
}

// The same, by whole blocks first.
pub fn plain_end(s: &[u8], start: usize) -> usize
    ensures { result ≡ start + plain_run (drop start s.now) }
{
    if s.len() <= start {
        return start;
    }
    let blocks = plain_blocks(s, start);
    plain_bytes(s, blocks)
}
