// Blocks of 16 bytes that do not hold a byte are passed at one go; in one that does its place is found by a mask.
ghost use Rattle.std.specs.Prelude.{◌≡◌, true, false, ℕ, ◌+◌, ◌≤◌, ◌<◌, eqb, length, get_or};
ghost use Rattle.ground.specs.Choice.{pick, bit};
ghost use Rattle.text_places.specs.Inner.Blocks.{is_byte, mask_of, Without};

// One byte more: whether it or one before it is `b`.
pub fn marked(holds: bool, x: u8, b: u8) -> bool
    ensures { result ≡ pick (eqb x b) true holds }
{
    if x == b {
        return true;
    }
    holds
}

// Whether one of the 16 bytes from a place on is `b`; promised is only what passing the block needs, that none is where the answer is no.
// The compiler makes a few vector instructions of the loop.
fn block_holds(s: &[u8], at: usize, b: u8) -> bool
    requires { at + 16 ≤ length s.now }
    ensures { result ≡ false → (k : ℕ) → k < 16 → get_or s.now (at + k) 0 ≡ b → ⊥ }
{
    let mut holds = false;
    for i in 0..16 {
        holds = marked(holds, s[at + i], b);
    }
    holds
}

// A digit of a mask: whether a byte is `b`.
fn mask_digit(x: u8, b: u8) -> u16
    ensures { result ≡ bit (eqb x b) }
{
    if x == b {
        return 1;
    }
    0
}

// The mask of the two bytes from a place on: its lowest digit tells whether the first of them is `b`.
fn mask_of_two(s: &[u8], at: usize, b: u8) -> u16
    requires { at + 2 ≤ length s.now }
    ensures { result ≡ mask_of (is_byte b) s.now at 2 }
{
    let low = mask_digit(s[at], b);
    let high = mask_digit(s[at + 1], b);
    low + 2 * high
}

fn mask_of_four(s: &[u8], at: usize, b: u8) -> u16
    requires { at + 4 ≤ length s.now }
    ensures { result ≡ mask_of (is_byte b) s.now at 4 }
{
    let low = mask_of_two(s, at, b);
    let high = mask_of_two(s, at + 2, b);
    low + 4 * high
}

fn mask_of_eight(s: &[u8], at: usize, b: u8) -> u16
    requires { at + 8 ≤ length s.now }
    ensures { result ≡ mask_of (is_byte b) s.now at 8 }
{
    let low = mask_of_four(s, at, b);
    let high = mask_of_four(s, at + 4, b);
    low + 16 * high
}

// How many of the 16 bytes from a place on stand before the first `b`; promised is only what passing them needs. So the place is found
// without a loop, whose end would be guessed wrong. A mask that is made of halves the compiler takes from one comparison as it stands; one
// that is made digit by digit it puts together anew.
fn before_in_block(s: &[u8], at: usize, b: u8) -> usize
    requires { at + 16 ≤ length s.now }
    ensures { (result ≤ 16) × ((k : ℕ) → k < result → get_or s.now (at + k) 0 ≡ b → ⊥) }
{
    let low = mask_of_eight(s, at, b);
    let high = mask_of_eight(s, at + 8, b);
    u16::trailing_zeros(low + 256 * high) as usize
}

// A place up to which no byte from `from` on is `b`: the place of the first one, or the end where there is none. No block is asked where
// the byte stands first, as in a text of blank lines; and of fewer than 16 bytes all are left to the caller, who asks byte by byte.
pub fn after_blocks(s: &[u8], from: usize, b: u8) -> usize
    requires { from ≤ length s.now }
    ensures { Without b s.now from result }
{
    if from < s.len() {
        if s[from] == b {
            return from;
        }
    }
    let mut at = from;
    while 16 <= s.len() - at {
        if block_holds(s, at, b) {
            return at + before_in_block(s, at, b);
        }
        at += 16;
    }
    if s.len() - from < 16 {
        return at;
    }
    // the last block begins in the one before it
    let last = s.len() - 16;
    if block_holds(s, last, b) {
        return last + before_in_block(s, last, b);
    }
    s.len()
}
