// Places of bytes in a text, and whether two texts are the same.
ghost use Rattle.std.specs.Prelude.{◌≡◌};
ghost use Rattle.text_places.specs.Places.{first_where, last_where, starts, starts_pair, same};

use crate::blocks::after_blocks;

// The first place of a byte.
pub fn first_byte(s: &[u8], b: u8) -> Option<usize>
    ensures { result ≡ first_where (starts b) s.now }
{
    for at in after_blocks(s, 0, b)..s.len() {
        if s[at] == b {
            return Some(at);
        }
    }
    None
}

// The last place of a byte.
pub fn last_byte(s: &[u8], b: u8) -> Option<usize>
    ensures { result ≡ last_where (starts b) s.now }
{
    let mut end = s.len();
    while 0 < end {
        let at = end - 1;
        if s[at] == b {
            return Some(at);
        }
        if at == 0 {
            return None;
        }
        // two bytes a turn: of a loop that can end at one place only the compiler counts what follows along with it
        let before = at - 1;
        if s[before] == b {
            return Some(before);
        }
        end = before;
    }
    None
}

// The first place of two bytes, one after the other.
pub fn first_pair(s: &[u8], a: u8, b: u8) -> Option<usize>
    ensures { result ≡ first_where (starts_pair a b) s.now }
{
    let mut at = after_blocks(s, 0, a);
    while at + 1 < s.len() {
        if s[at] != a {
            at += 1;
            continue;
        }
        if s[at + 1] != b {
            at += 1;
            continue;
        }
        return Some(at);
    }
    None
}

// Whether two texts have the same bytes. Either may be a fixed byte string. Lengths are compared first.
pub fn same_bytes(s: &[u8], t: &[u8]) -> bool
    ensures { result ≡ same s.now t.now }
{
    if s.len() != t.len() {
        return false;
    }
    for i in 0..s.len() {
        if s[i] != t[i] {
            return false;
        }
    }
    true
}
