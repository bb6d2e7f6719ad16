// Bytes written into a lent pool at a place; the answer is the place after the last one. Where there is no room for all of them, the pool is
// the caller's to clear.
ghost use Rattle.std.specs.Prelude.{◌≡◌, [], ◌∷◌, ◌+◌, ◌≤◌, length, take, drop, replicate};
ghost use Rattle.ground.specs.Put.{put};
ghost use Rattle.table_pool.specs.Inner.Wrote.{WroteBy};

// The pool has no room for what is to be written.
#[derive(Clone, Copy, Debug, PartialEq, Eq)]
pub struct NoRoom;

// Two texts are written one after the other: where the second one starts, and the place after it.
#[derive(Clone, Copy)]
pub struct TwoTexts {
    pub second: usize,
    pub next: usize,
}

fn put_four(pool: &mut [u8], at: usize, a: u8, b: u8, c: u8, d: u8)
    requires { at + 4 ≤ length pool.old }
    ensures { pool.new ≡ put pool.old at (a ∷ b ∷ c ∷ d ∷ []) }
{
    pool[at] = a;
    pool[at + 1] = b;
    pool[at + 2] = c;
    pool[at + 3] = d;
}

// Eight bytes of a text, from its place `from` on. All are read before the first is written: so the compiler makes one read and one write.
fn put_eight(pool: &mut [u8], at: usize, text: &[u8], from: usize)
    requires { (at + 8 ≤ length pool.old) × («from» + 8 ≤ length text.now) }
    ensures { pool.new ≡ put pool.old at (take 8 (drop «from» text.now)) }
{
    let a = text[from];
    let b = text[from + 1];
    let c = text[from + 2];
    let d = text[from + 3];
    let e = text[from + 4];
    let f = text[from + 5];
    let g = text[from + 6];
    let h = text[from + 7];
    put_four(pool, at, a, b, c, d);
    put_four(pool, at + 4, e, f, g, h);
}

// A text of at least eight bytes: the last eight may begin in those before them.
fn put_eights(pool: &mut [u8], at: usize, text: &[u8])
    requires { (8 ≤ length text.now) × (at + length text.now ≤ length pool.old) }
    ensures { pool.new ≡ put pool.old at text.now }
{
    let last = text.len() - 8;
    let mut k = 0;
    while k < last {
        put_eight(pool, at + k, text, k);
        k += 8;
    }
    put_eight(pool, at + last, text, last);
}

// A text as it is.
pub fn put_text(pool: &mut [u8], at: usize, text: &[u8]) -> Result<usize, NoRoom>
    ensures { WroteBy result pool.old at text.now pool.new }
{
    if pool.len() < at {
        return Err(NoRoom);
    }
    if pool.len() - at < text.len() {
        return Err(NoRoom);
    }
    if 8 <= text.len() {
        put_eights(pool, at, text);
        return Ok(at + text.len());
    }
    for k in 0..text.len() {
        pool[at + k] = text[k];
    }
    Ok(at + text.len())
}

// One byte so many times.
pub fn put_bytes(pool: &mut [u8], at: usize, byte: u8, count: usize) -> Result<usize, NoRoom>
    ensures { WroteBy result pool.old at (replicate count byte) pool.new }
{
    if pool.len() < at {
        return Err(NoRoom);
    }
    if pool.len() - at < count {
        return Err(NoRoom);
    }
    let mut k = 0;
    while k < count {
        pool[at + k] = byte;
        k += 1;
    }
    Ok(at + k)
}

// A text that stands in the pool already, before the place at which it is written once more.
pub fn put_copy(pool: &mut [u8], at: usize, place: usize, size: usize) -> Result<usize, NoRoom>
    requires { place + size ≤ at }
    ensures { WroteBy result pool.old at (take size (drop place pool.old)) pool.new }
{
    if pool.len() < at {
        return Err(NoRoom);
    }
    if pool.len() - at < size {
        return Err(NoRoom);
    }
    let mut k = 0;
    while k < size {
        pool[at + k] = pool[place + k];
        k += 1;
    }
    Ok(at + k)
}
