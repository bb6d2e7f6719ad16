// A number in decimal digits.
ghost use Rattle.table_pool.specs.Inner.Wrote.{WroteBy};
ghost use Rattle.load_report.specs.Digits.{decimal};

use table_pool::{NoRoom, put_text};

// The digits, written from the last to the first, and then into place.
pub fn put_decimal(out: &mut [u8], at: usize, n: u32) -> Result<usize, NoRoom>
    ensures { WroteBy result out.old at (decimal n) out.new }
{
    let mut digits = [0u8; 10];
    let mut first = 9;
    let mut rest = n;
    while 9 < rest {
        digits[first] = 48 + (rest % 10) as u8;
        rest /= 10;
        first -= 1;
    }
    digits[first] = 48 + (rest % 10) as u8;
    put_text(out, at, &digits[first..])
}
