// Ink: bytes that alone tell that no white space stands there. Runs of it pass by blocks of 16.
ghost use Rattle.std.specs.Prelude.{◌≡◌, true, false, ℕ, ◌+◌, ◌≤◌, ◌<◌, length, get_or};
ghost use Rattle.ground.specs.Choice.{pick, bit};
ghost use Rattle.text_places.specs.Inner.Blocks.{mask_of};
ghost use Rattle.text_white.specs.Inner.Inked.{ink, no_ink, Inked};

// Whether a byte alone tells that no white space stands there, and that none ends there: an ASCII character above the space.
pub fn is_ink(b: u8) -> bool
    ensures { result ≡ ink b }
{
    if b < 0x21 {
        return false;
    }
    if b < 0x80 {
        return true;
    }
    false
}

// One byte more: whether it or one before it is no ink.
fn gap_so_far(holds: bool, b: u8) -> bool
    ensures { result ≡ pick (no_ink b) true holds }
{
    if is_ink(b) {
        return holds;
    }
    true
}

// Whether one of the 16 bytes from a place on is no ink; promised is only what passing the block needs, that all are where the answer is
// no.
// The compiler makes a few vector instructions of the loop.
fn block_has_gap(s: &[u8], at: usize) -> bool
    requires { at + 16 ≤ length s.now }
    ensures { result ≡ false → (k : ℕ) → k < 16 → no_ink (get_or s.now (at + k) 0) ≡ false }
{
    let mut holds = false;
    for i in 0..16 {
        holds = gap_so_far(holds, s[at + i]);
    }
    holds
}

// A digit of a mask: whether a byte is no ink.
fn gap_digit(b: u8) -> u16
    ensures { result ≡ bit (no_ink b) }
{
    if is_ink(b) {
        return 0;
    }
    1
}

// The mask of the two bytes from a place on: its lowest digit tells whether the first of them is no ink.
fn gaps_of_two(s: &[u8], at: usize) -> u16
    requires { at + 2 ≤ length s.now }
    ensures { result ≡ mask_of no_ink s.now at 2 }
{
    let low = gap_digit(s[at]);
    let high = gap_digit(s[at + 1]);
    low + 2 * high
}

fn gaps_of_four(s: &[u8], at: usize) -> u16
    requires { at + 4 ≤ length s.now }
    ensures { result ≡ mask_of no_ink s.now at 4 }
{
    let low = gaps_of_two(s, at);
    let high = gaps_of_two(s, at + 2);
    low + 4 * high
}

fn gaps_of_eight(s: &[u8], at: usize) -> u16
    requires { at + 8 ≤ length s.now }
    ensures { result ≡ mask_of no_ink s.now at 8 }
{
    let low = gaps_of_four(s, at);
    let high = gaps_of_four(s, at + 4);
    low + 16 * high
}

// How many of the 16 bytes from a place on are ink before the first that is none, as in `text_places::blocks`.
fn ink_in_block(s: &[u8], at: usize) -> usize
    requires { at + 16 ≤ length s.now }
    ensures { (result ≤ 16) × ((k : ℕ) → k < result → no_ink (get_or s.now (at + k) 0) ≡ false) }
{
    let low = gaps_of_eight(s, at);
    let high = gaps_of_eight(s, at + 8);
    u16::trailing_zeros(low + 256 * high) as usize
}

// A place up to which every byte is ink, which is all that is promised: the first that is none, or one with fewer than 16 bytes behind it,
// which the caller asks one by one.
pub fn past_ink(s: &[u8]) -> usize
    ensures { Inked s.now result }
{
    let mut at = 0;
    while 16 <= s.len() - at {
        if block_has_gap(s, at) {
            return at + ink_in_block(s, at);
        }
        at += 16;
    }
    at
}
