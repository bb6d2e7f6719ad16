// Raw signatures, turned into descriptors where they stand in the pool.
ghost use Rattle.std.specs.Prelude.{◌≡◌, ◌≤◌, length};
ghost use Rattle.table_pool.specs.Names.{class_descriptor};
ghost use Rattle.ground.specs.Put.{between};
ghost use Rattle.descriptor.specs.Signatures.{is_letter, raw_kept, raw_type, raw_signature};
ghost use Rattle.table_pool.specs.Inner.Wrote.{WroteBy};

use crate::types::is_kept;
use table_pool::{NoRoom, slash_for_dot};
use text_places::last_byte;

// Whether a byte is one of the nine letters.
fn is_letter(b: u8) -> bool
    ensures { result ≡ is_letter b }
{
    if b == b'V' {
        return true;
    }
    if b == b'Z' {
        return true;
    }
    if b == b'B' {
        return true;
    }
    if b == b'C' {
        return true;
    }
    if b == b'S' {
        return true;
    }
    if b == b'I' {
        return true;
    }
    if b == b'J' {
        return true;
    }
    if b == b'F' {
        return true;
    }
    b == b'D'
}

// Whether a raw type is a descriptor already.
fn is_descriptor(s: &[u8]) -> bool
    ensures { result ≡ raw_kept s.now }
{
    if s.len() == 0 {
        return false;
    }
    if s[0] == b'[' {
        return true;
    }
    if s.len() == 1 {
        return is_letter(s[0]);
    }
    is_kept(s)
}

// The bytes from `at` to `end` are a class name and become its descriptor: they move by one.
fn name_in_place(pool: &mut [u8], at: usize, end: usize) -> Result<usize, NoRoom>
    requires { (at ≤ «end») × («end» ≤ length pool.old) }
    ensures { WroteBy result pool.old at (class_descriptor (between pool.old at «end»)) pool.new }
{
    if pool.len() - end < 2 {
        return Err(NoRoom);
    }
    let mut j = end;
    while at < j {
        let before = j - 1;
        pool[j] = slash_for_dot(pool[before]);
        j = before;
    }
    pool[at] = b'L';
    pool[end + 1] = b';';
    Ok(end + 2)
}

// The bytes from `at` to `end` are a raw type.
fn settle_type(pool: &mut [u8], at: usize, end: usize) -> Result<usize, NoRoom>
    requires { (at ≤ «end») × («end» ≤ length pool.old) }
    ensures { WroteBy result pool.old at (raw_type (between pool.old at «end»)) pool.new }
{
    if is_descriptor(&pool[at..end]) {
        return Ok(end);
    }
    name_in_place(pool, at, end)
}

// The bytes from `at` to `end` are a raw signature, of a method or of a field.
pub fn settle_signature(
    pool: &mut [u8],
    at: usize,
    end: usize,
    method: bool,
) -> Result<usize, NoRoom>
    requires { (at ≤ «end») × («end» ≤ length pool.old) }
    ensures { WroteBy result pool.old at (raw_signature method (between pool.old at «end»)) pool.new }
{
    if method {
        let Some(close) = last_byte(&pool[at..end], b')') else {
            return Ok(end);
        };
        return settle_type(pool, at + close + 1, end);
    }
    settle_type(pool, at, end)
}
