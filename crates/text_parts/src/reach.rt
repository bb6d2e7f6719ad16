// How far a text is UTF-8, told for one place in each group of bytes: the first at or behind the group's start at which a sequence may
// begin.
ghost use Rattle.std.specs.Prelude.{◌≡◌, ◌<◌, ◌≤◌, ◌^◌, length, drop};
ghost use Rattle.text_utf8.proofs.Boundaries.{Fresh};
ghost use Rattle.text_parts.specs.Inner.Reach.{is_tail, tails_at, valid_to, Begun, Reached, group_count};

use text_utf8::{Broken, check_text};

// The bytes of a group, and the groups that the table tells of: those of 4,194,304 bytes.
pub const GROUP: usize = 128;

pub const GROUPS: usize = 32768;

// Whether an octet can only continue a sequence.
pub fn is_tail(b: u8) -> bool
    ensures { result ≡ is_tail b }
{
    if b < 0x80 {
        return false;
    }
    b <= 0xBF
}

// How many such octets stand at a place, four at most: no sequence has more than three.
pub fn tails_at(s: &[u8], at: usize) -> usize
    requires { at ≤ length s.now }
    ensures { result ≡ tails_at s.now at }
{
    let mut count = 0;
    let mut next = at;
    while count < 4 {
        if s.len() <= next {
            return count;
        }
        if !is_tail(s[next]) {
            return count;
        }
        count += 1;
        next += 1;
    }
    count
}

// The place up to which a text is UTF-8 from a place on.
fn valid_to(s: &[u8], at: usize) -> usize
    requires { at ≤ length s.now }
    ensures { result ≡ valid_to s.now at }
{
    match check_text(&s[at..]) {
        Ok(()) => s.len(),
        Err(
            Broken {
                at: broken,
                length: _,
            },
        ) => at + broken,
    }
}

// The same, where the text is known to be UTF-8 from an earlier place up to `good`: what was read is not read again.
fn reach_from(s: &[u8], good: usize, fresh: usize) -> usize
    requires { Begun s.now fresh good × (fresh ≤ length s.now) × Fresh (drop fresh s.now) }
    ensures { result ≡ valid_to s.now fresh }
{
    if fresh <= good {
        return good;
    }
    valid_to(s, fresh)
}

// The table for a text. Each byte is read once or twice.
pub fn mark_reach(reach: &mut [u32], s: &[u8])
    requires { (length reach.old ≡ group_count) × (length s.now < 2 ^ 32) }
    ensures { Reached s.now reach.new }
{
    let mut group = 0;
    let mut place = 0;
    let mut good = valid_to(s, 0);
    while group < GROUPS {
        if s.len() < place {
            return;
        }
        let tails = tails_at(s, place);
        if tails < 4 {
            good = reach_from(s, good, place + tails);
            reach[group] = good as u32;
            group += 1;
            place += GROUP;
            continue;
        }
        group += 1;
        place += GROUP;
        continue;
    }
}
