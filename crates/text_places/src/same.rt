// Whether two texts are the same, by blocks of 16 bytes, of eight or of four, so that texts of one kind take one way. Up to 64 bytes all
// places to look at are known at once: no loop, since a branch that is guessed wrong costs more than a few bytes that are looked at twice.
ghost use Rattle.std.specs.Prelude.{◌≡◌, true, ◌+◌, ◌*◌, ◌≤◌, ◌<◌, min, eqb, length};
ghost use Rattle.ground.specs.Choice.{pick};
ghost use Rattle.text_places.specs.Places.{same};
ghost use Rattle.text_places.specs.Inner.Differing.{differs};

// One byte more: whether it or one before it differs.
pub fn also_differs(before: bool, x: u8, y: u8) -> bool
    ensures { result ≡ pick (eqb x y) before true }
{
    if x == y {
        return before;
    }
    true
}

// Whether a block of bytes differs. Where its size is a number that the compiler knows, it makes one comparison of the loop.
fn block_differs(s: &[u8], t: &[u8], at: usize, size: usize) -> bool
    requires { (at + size ≤ length s.now) × (at + size ≤ length t.now) }
    ensures { result ≡ differs s.now t.now at size }
{
    let mut before = false;
    for i in 0..size {
        before = also_differs(before, s[at + i], t[at + i]);
    }
    before
}

// Of texts that a block at each end covers: the second block may begin in the first one.
fn same_by_ends(s: &[u8], t: &[u8], size: usize) -> bool
    requires { (length s.now ≡ length t.now) × (size ≤ length s.now) × (length s.now ≤ 2 * size) }
    ensures { result ≡ same s.now t.now }
{
    if block_differs(s, t, 0, size) {
        return false;
    }
    !block_differs(s, t, s.len() - size, size)
}

// Of texts of fewer than four bytes: the first, the middle and the last byte are all that there are, and may be one.
fn same_by_bytes(s: &[u8], t: &[u8]) -> bool
    requires { (length s.now ≡ length t.now) × (length s.now < 4) }
    ensures { result ≡ same s.now t.now }
{
    if s.len() == 0 {
        return true;
    }
    let middle = s.len() / 2;
    let last = s.len() - 1;
    let first_differs = also_differs(false, s[0], t[0]);
    let either_differs = also_differs(first_differs, s[middle], t[middle]);
    !also_differs(either_differs, s[last], t[last])
}

// Of texts of fewer than 16 bytes.
fn same_few(s: &[u8], t: &[u8]) -> bool
    requires { (length s.now ≡ length t.now) × (length s.now < 16) }
    ensures { result ≡ same s.now t.now }
{
    if 8 <= s.len() {
        return same_by_ends(s, t, 8);
    }
    if 4 <= s.len() {
        return same_by_ends(s, t, 4);
    }
    same_by_bytes(s, t)
}

// The lesser of two places.
fn lesser(a: usize, b: usize) -> usize
    ensures { result ≡ min a b }
{
    if b < a {
        return b;
    }
    a
}

// Of texts of 16 to 64 bytes: four blocks, none of which begins after the last one, so that they overlap in a shorter text.
fn same_by_blocks(s: &[u8], t: &[u8]) -> bool
    requires { (length s.now ≡ length t.now) × (16 ≤ length s.now) × (length s.now ≤ 64) }
    ensures { result ≡ same s.now t.now }
{
    let last = s.len() - 16;
    let second = lesser(16, last);
    let third = lesser(32, last);
    let a = block_differs(s, t, 0, 16);
    let b = block_differs(s, t, second, 16);
    let c = block_differs(s, t, third, 16);
    let d = block_differs(s, t, last, 16);
    !(a | b | c | d)
}

// As `same_bytes`, for texts that are mostly the same where their lengths are: the last block may begin in the one before it.
pub fn same_text(s: &[u8], t: &[u8]) -> bool
    ensures { result ≡ same s.now t.now }
{
    if s.len() != t.len() {
        return false;
    }
    if s.len() < 16 {
        return same_few(s, t);
    }
    if s.len() <= 64 {
        return same_by_blocks(s, t);
    }
    let last = s.len() - 16;
    let mut at = 0;
    while at < last {
        if block_differs(s, t, at, 16) {
            return false;
        }
        at += 16;
    }
    !block_differs(s, t, last, 16)
}
