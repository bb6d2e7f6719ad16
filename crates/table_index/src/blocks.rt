// How far a text and a name are alike, by blocks of 16 bytes.
ghost use Rattle.std.specs.Prelude.{◌≡◌, false, ℕ, ◌+◌, ◌≤◌, ◌<◌, length, get_or};
ghost use Rattle.table_pool.specs.Inner.Named.{slash_if};
ghost use Rattle.table_index.specs.Inner.Order.{AlikeTo};

use table_pool::stored_byte;
use text_places::also_differs;

// Whether one of 16 bytes differs; promised is only what passing the block needs, that none does where the answer is no. The compiler makes
// a few vector instructions of the loop.
fn block_differs(text: &[u8], at: usize, name: &[u8], from: usize, dots: bool) -> bool
    requires { (at + 16 ≤ length text.now) × («from» + 16 ≤ length name.now) }
    ensures { result ≡ false → (k : ℕ) → k < 16 →
        get_or text.now (at + k) 0 ≡ slash_if dots (get_or name.now («from» + k) 0) }
{
    let mut differs = false;
    let mut i = 0;
    while i < 16 {
        differs = also_differs(differs, text[at + i], stored_byte(name[from + i], dots));
        i += 1;
    }
    differs
}

// So many bytes of a name stand in a text from the place `shift` on, by whole blocks.
pub fn alike_up_to(text: &[u8], shift: usize, name: &[u8], dots: bool) -> usize
    requires { shift ≤ length text.now }
    ensures { AlikeTo text.now shift name.now dots result }
{
    let mut k = 0;
    while 16 <= name.len() - k {
        let at = shift + k;
        if text.len() - at < 16 {
            return k;
        }
        if block_differs(text, at, name, k, dots) {
            return k;
        }
        k += 16;
    }
    k
}
