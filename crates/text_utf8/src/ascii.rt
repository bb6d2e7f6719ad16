// Runs of ASCII, by blocks. Where the size of a block is a number that the compiler knows, it makes vector instructions of its loop.
ghost use Rattle.std.specs.Prelude.{◌≡◌, ℕ, ◌+◌, ◌≤◌, ◌<◌, max, length, get_or};
ghost use Rattle.text_utf8.specs.Inner.Runs.{AsciiTo};

// The greater of two bytes.
fn greater(a: u8, b: u8) -> u8
    ensures { result ≡ max a b }
{
    if a < b {
        return b;
    }
    a
}

// A bound of the bytes of a block: the greatest of them.
fn greatest_of_block(s: &[u8], at: usize, size: usize) -> u8
    requires { at + size ≤ length s.now }
    ensures { (k : ℕ) → k < size → get_or s.now (at + k) 0 ≤ result }
{
    let mut greatest = 0;
    for i in 0..size {
        greatest = greater(greatest, s[at + i]);
    }
    greatest
}

// A place up to which all bytes from `start` on are ASCII, by whole blocks.
pub fn ascii_blocks(s: &[u8], start: usize, size: usize) -> usize
    requires { (start ≤ length s.now) × (0 < size) }
    ensures { AsciiTo s.now start result }
{
    let mut at = start;
    while size <= s.len() - at {
        if 0x7F < greatest_of_block(s, at, size) {
            return at;
        }
        at += size;
    }
    at
}

// The place up to which all bytes from `start` on are ASCII.
fn ascii_bytes(s: &[u8], start: usize) -> usize
    requires { start ≤ length s.now }
    ensures { AsciiTo s.now start result }
{
    for at in start..s.len() {
        if 0x7F < s[at] {
            return at;
        }
    }
    s.len()
}

// The same: no block is asked where the first byte is not ASCII, as in lines of other scripts.
pub fn ascii_end(s: &[u8], start: usize) -> usize
    requires { start ≤ length s.now }
    ensures { AsciiTo s.now start result }
{
    if start < s.len() {
        if 0x7F < s[start] {
            return start;
        }
    }
    let blocks = ascii_blocks(s, start, 16);
    ascii_bytes(s, blocks)
}

// The place up to which a text is ASCII, which may be as long as a pool: first by blocks so long that what a block costs besides its bytes
// does not count.
pub fn ascii_start(s: &[u8]) -> usize
    ensures { AsciiTo s.now 0 result }
{
    let far = ascii_blocks(s, 0, 256);
    let blocks = ascii_blocks(s, far, 16);
    ascii_bytes(s, blocks)
}
