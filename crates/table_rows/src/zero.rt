// Rows and bytes made zero.
ghost use Rattle.std.specs.Prelude.{◌≡◌, length, replicate};
ghost use Rattle.table_rows.specs.Rows.{zero_class, zero_member};

use crate::rows::{ClassRow, MemberRow};

pub fn zero_classes(rows: &mut [ClassRow])
    ensures { rows.new ≡ replicate (length rows.old) zero_class }
{
    rows.fill([0, 0, 0, 0]);
}

pub fn zero_members(rows: &mut [MemberRow])
    ensures { rows.new ≡ replicate (length rows.old) zero_member }
{
    rows.fill([0, 0, 0, 0, 0, 0, 0, 0, 0, 0, 0, 0, 0, 0, 0]);
}

pub fn zero_bytes(pool: &mut [u8])
    ensures { pool.new ≡ replicate (length pool.old) 0 }
{
    pool.fill(0);
}
