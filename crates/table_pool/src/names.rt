// Class names, written into a lent pool as they stand in a descriptor.
ghost use Rattle.std.specs.Prelude.{◌≡◌, [], ◌∷◌, ◌++◌};
ghost use Rattle.table_pool.specs.Inner.Named.{slash_if, name_bytes, class_piece};
ghost use Rattle.table_pool.specs.Names.{slash, class_descriptor};
ghost use Rattle.table_pool.specs.Inner.Wrote.{WroteBy};

use crate::write::{NoRoom, put_bytes};

// A dot as a slash, any other byte as it is.
pub fn slash_for_dot(b: u8) -> u8
    ensures { result ≡ slash b }
{
    if b == b'.' {
        return b'/';
    }
    b
}

// A byte of a name as it stands in a descriptor.
pub fn stored_byte(b: u8, dots: bool) -> u8
    ensures { result ≡ slash_if dots b }
{
    if dots {
        return slash_for_dot(b);
    }
    b
}

// A name, with dots as slashes or as they are.
pub fn put_name(pool: &mut [u8], at: usize, name: &[u8], dots: bool) -> Result<usize, NoRoom>
    ensures { WroteBy result pool.old at (name_bytes dots name.now) pool.new }
{
    if pool.len() < at {
        return Err(NoRoom);
    }
    if pool.len() - at < name.len() {
        return Err(NoRoom);
    }
    let end = at + name.len();
    for k in 0..name.len() {
        pool[at + k] = stored_byte(name[k], dots);
    }
    Ok(end)
}

// A name and a `;`.
pub fn put_closed(pool: &mut [u8], at: usize, name: &[u8], dots: bool) -> Result<usize, NoRoom>
    ensures { WroteBy result pool.old at (name_bytes dots name.now ++ (0x3B ∷ [])) pool.new }
{
    let named = put_name(pool, at, name, dots)?;
    put_bytes(pool, named, b';', 1)
}

// A class piece.
pub fn put_piece(pool: &mut [u8], at: usize, name: &[u8], dots: bool) -> Result<usize, NoRoom>
    ensures { WroteBy result pool.old at (class_piece dots name.now) pool.new }
{
    let begun = put_bytes(pool, at, b'L', 1)?;
    put_closed(pool, begun, name, dots)
}

// The descriptor of a class name.
pub fn put_class(pool: &mut [u8], at: usize, name: &[u8]) -> Result<usize, NoRoom>
    ensures { WroteBy result pool.old at (class_descriptor name.now) pool.new }
{
    put_piece(pool, at, name, true)
}
