// How two texts stand to each other.
ghost use Rattle.std.specs.Prelude.{◌≡◌};
ghost use Rattle.table_index.specs.Inner.Order.{compared, not_after};

use crate::blocks::alike_up_to;
use std::cmp::Ordering;

// Byte by byte; a text that ends first stands before.
pub fn compare_texts(a: &[u8], b: &[u8]) -> Ordering
    ensures { result ≡ compared a.now b.now }
{
    let mut i = alike_up_to(a, 0, b, false);
    while i < a.len() {
        if b.len() <= i {
            return Ordering::Greater;
        }
        if a[i] < b[i] {
            return Ordering::Less;
        }
        if b[i] < a[i] {
            return Ordering::Greater;
        }
        i += 1;
    }
    if i < b.len() {
        return Ordering::Less;
    }
    Ordering::Equal
}

pub fn not_after(order: Ordering) -> bool
    ensures { result ≡ not_after order }
{
    order.is_le()
}
