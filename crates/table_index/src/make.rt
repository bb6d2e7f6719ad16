// The index of class rows, made in one go while rows and pool stand still.
ghost use Rattle.std.specs.Prelude.{◌≡◌, ◌≤◌, length, replicate};
ghost use Rattle.table_rows.specs.Rows.{most_classes};
ghost use Rattle.table_index.specs.Inner.Index.{index_size, IndexBy};

use crate::group::group_rows;
use crate::insert::insert_rows;
use crate::lay::lay_shelves;
use table_rows::ClassRow;
use tables::Side;

// An index of all rows by their descriptors on one side.
pub fn index_classes(index: &mut [u16], side: Side, classes: &[ClassRow], pool: &[u8])
    requires { (index.old ≡ replicate index_size 0) × (length classes.now ≤ most_classes) }
    ensures { IndexBy side classes.now pool.now index.new }
{
    group_rows(index, side, classes, pool);
    lay_shelves(index, classes.len());
    insert_rows(index, side, classes, pool);
}
