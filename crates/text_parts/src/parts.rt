// Whether a part of a text is UTF-8: its first bytes are read, up to the next place that the table tells of.
ghost use Rattle.std.specs.Prelude.{◌≡◌, ◌<◌, ◌≤◌, length};
ghost use Rattle.ground.specs.Put.{between};
ghost use Rattle.text_utf8.specs.Utf8.{is_utf8};
ghost use Rattle.text_parts.specs.Inner.Reach.{Reached, LongPart, ends_well};

use crate::reach::{GROUP, GROUPS, is_tail, tails_at};
use text_utf8::is_utf8;

fn wide(x: u32) -> usize
    ensures { result ≡ x }
{
    x as usize
}

// Whether a text that is UTF-8 up to `good` is so up to `end`: there a sequence has to end.
fn ends_well(s: &[u8], good: usize, end: usize) -> bool
    requires { good ≤ length s.now }
    ensures { result ≡ ends_well s.now good «end» }
{
    if good < end {
        return false;
    }
    if good == end {
        return true;
    }
    !is_tail(s[end])
}

// A part that is longer than two groups.
fn long_part(s: &[u8], reach: &[u32], start: usize, end: usize) -> bool
    requires { Reached s.now reach.now × LongPart s.now start «end» }
    ensures { result ≡ is_utf8 (between s.now start «end») }
{
    let group = start / GROUP + 1;
    if GROUPS <= group {
        return is_utf8(&s[start..end]);
    }
    let place = group * GROUP;
    let tails = tails_at(s, place);
    if 4 <= tails {
        return false;
    }
    let fresh = place + tails;
    if !is_utf8(&s[start..fresh]) {
        return false;
    }
    ends_well(s, wide(reach[group]), end)
}

// Whether the bytes from `start` to `end` are UTF-8.
pub fn part_is_utf8(s: &[u8], reach: &[u32], start: usize, end: usize) -> bool
    requires { Reached s.now reach.now × (start ≤ «end») × («end» ≤ length s.now) }
    ensures { result ≡ is_utf8 (between s.now start «end») }
{
    if end - start <= 256 {
        return is_utf8(&s[start..end]);
    }
    long_part(s, reach, start, end)
}
