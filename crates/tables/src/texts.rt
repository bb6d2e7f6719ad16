// The texts that rows name, as parts of the pool.
ghost use Rattle.std.specs.Prelude.{◌≡◌, min};
ghost use Rattle.tables.specs.Back.{text_in};

use table_rows::Text;

// The lesser of two numbers.
pub fn lesser(a: usize, b: usize) -> usize
    ensures { result ≡ min a b }
{
    a.min(b)
}

// A text of the pool. Of one that reaches past the pool's end, what stands in the pool: a row that was never checked is answered too.
pub fn text_in(pool: &[u8], text: Text) -> &[u8]
    ensures { result.now ≡ text_in pool.now text }
{
    let start = (text.place as usize).min(pool.len());
    let length = (text.length as usize).min(pool.len() - start);
    let end = start + length;
    &pool[start..end]
}
