// The octets of a code point above 7F in UTF-8 (RFC 3629, section 3).
ghost use Rattle.std.specs.Prelude.{◌≡◌, ◌+◌, ◌≤◌, ◌<◌, length, get_or, drop};
ghost use Rattle.ground.specs.Put.{put};
ghost use Rattle.json_grammar.specs.Encode.{utf8};
ghost use Rattle.json_decode.specs.Inner.Octets.{heads};

use crate::length::utf8_length;

// The octet with the number `k`, from 0 on.
fn octet(code: u32, k: usize) -> u8
    requires { (0x80 ≤ code) × (code < 0x110000) × (k < length (utf8 code)) }
    ensures { result ≡ get_or (utf8 code) k 0 }
{
    if code < 0x800 {
        if k == 0 {
            return 0xC0 + (code / 64) as u8;
        }
        return 0x80 + (code % 64) as u8;
    }
    if code < 0x10000 {
        if k == 0 {
            return 0xE0 + (code / 4096) as u8;
        }
        if k == 1 {
            return 0x80 + (code / 64 % 64) as u8;
        }
        return 0x80 + (code % 64) as u8;
    }
    if k == 0 {
        return 0xF0 + (code / 262144) as u8;
    }
    if k == 1 {
        return 0x80 + (code / 4096 % 64) as u8;
    }
    if k == 2 {
        return 0x80 + (code / 64 % 64) as u8;
    }
    0x80 + (code % 64) as u8
}

// Whether the octets of a code point stand in a text at a place.
pub fn has_octets(text: &[u8], at: usize, code: u32) -> bool
    requires { (at ≤ length text.now) × (0x80 ≤ code) × (code < 0x110000) }
    ensures { result ≡ heads (utf8 code) (drop at text.now) }
{
    let n = utf8_length(code);
    for k in 0..n {
        if text.len() - at <= k {
            return false;
        }
        if text[at + k] != octet(code, k) {
            return false;
        }
    }
    true
}

// Writes the octets of a code point at a place.
pub fn put_octets(room: &mut [u8], at: usize, code: u32)
    requires { (at + length (utf8 code) ≤ length room.old) × (0x80 ≤ code) × (code < 0x110000) }
    ensures { room.new ≡ put room.old at (utf8 code) }
{
    let n = utf8_length(code);
    for k in 0..n {
        room[at + k] = octet(code, k);
    }
}
