// The rows and the pool of a text whose UTF-8 and length are checked.
ghost use Rattle.std.specs.Prelude.{◌≡◌, ◌≤◌, length};
ghost use Rattle.text_places.specs.Lines.{lines};
ghost use Rattle.load_rule.specs.Classes.{classes_of};
ghost use Rattle.load_rule.specs.Fates.{scan_of};
ghost use Rattle.load.specs.Inner.Into.{Limits, Counted, refused_of, accepted_of, IntoBy};
ghost use Rattle.load_rule.specs.Loading.{most_text};
ghost use Rattle.load_raw_types.specs.Inner.Behind.{Below};
ghost use Rattle.load_members.specs.Inner.Filled.{FilledBy};
ghost use Rattle.tables.specs.Back.{read_back};
ghost use Rattle.table_rows.specs.Rows.{most_classes, most_pool};

use load_classes::{Classes, ClassesError, write_classes};
use load_members::{FillError, Filled, write_members};
use load_rule::{Fates, Fault, LoadError, Loaded};
use load_scan::{no_fates, scan_from};
use table_index::{INDEX, index_classes};
use table_rows::{ClassRow, MemberRow};
use tables::Side;

// The answer where rows or pool are too few: the first faulty line, else what is missing first.
fn refused(
    scan: Result<Fates, Fault>,
    class_rows: usize,
    member_rows: usize,
) -> Result<Loaded, LoadError>
    requires { Counted scan }
    ensures { result ≡ refused_of scan class_rows member_rows }
{
    match scan {
        Err(fault) => Err(LoadError::Faulty(fault)),
        Ok(sum) => {
            if sum.class == 0 {
                return Err(LoadError::NoClasses);
            }
            if class_rows < sum.class as usize {
                return Err(LoadError::FewClassRows);
            }
            if member_rows < (sum.field + sum.method) as usize {
                return Err(LoadError::FewMemberRows);
            }
            Err(LoadError::ShortPool)
        }
    }
}

// What becomes of all lines.
fn scan_all(text: &[u8]) -> Result<Fates, Fault>
    requires { length text.now ≤ most_text }
    ensures { result ≡ scan_of (lines text.now) }
{
    scan_from(text, 0, no_fates(), false)
}

// The answer once all is written.
fn accepted(fates: Fates, end: usize) -> Result<Loaded, LoadError>
    requires { «end» ≤ most_pool }
    ensures { result ≡ accepted_of fates «end» }
{
    if fates.class == 0 {
        return Err(LoadError::NoClasses);
    }
    Ok(Loaded {
        fates,
        names: end as u32,
    })
}

// The members of a text, once all class rows are known: `classes` are these, with their descriptors in the pool before the place `used`.
fn fill_indexed(
    text: &[u8],
    classes: &[ClassRow],
    members: &mut [MemberRow],
    pool: &mut [u8],
    used: usize,
) -> Result<Filled, FillError>
    requires { (length text.now ≤ most_text)
        × (length classes.now ≤ most_classes)
        × (length pool.old ≤ most_pool)
        × Below classes.now pool.old used }
    ensures { let cs = read_back classes.now pool.old in
        FilledBy result (lines text.now) cs used members.old pool.old members.new
        pool.new }
{
    let mut index = [0u16; INDEX];
    index_classes(&mut index, Side::Display, classes, pool);
    write_members(text, classes, &index, members, pool, used)
}

// So many class rows are asked one by one faster than by an index.
const FEW: usize = 8;

// The same for few or many class rows.
fn fill_members(
    text: &[u8],
    classes: &[ClassRow],
    members: &mut [MemberRow],
    pool: &mut [u8],
    used: usize,
) -> Result<Filled, FillError>
    requires { (read_back classes.now pool.old ≡ classes_of (lines text.now))
        × (length text.now ≤ most_text)
        × (length classes.now ≤ most_classes)
        × (length pool.old ≤ most_pool)
        × Below classes.now pool.old used }
    ensures { let cs = read_back classes.now pool.old in
        FilledBy result (lines text.now) cs used members.old pool.old members.new
        pool.new }
{
    if FEW < classes.len() {
        return fill_indexed(text, classes, members, pool, used);
    }
    let none = [0u16; 1];
    write_members(text, classes, &none, members, pool, used)
}

// Rows and pool of a text. Where they are too few, what is left in them is the caller's to clear.
pub fn load_into(
    text: &[u8],
    classes: &mut [ClassRow],
    members: &mut [MemberRow],
    pool: &mut [u8],
) -> Result<Loaded, LoadError>
    requires { Limits (length text.now) (length classes.old) (length members.old) (length pool.old) }
    ensures { let ls = lines text.now in
        IntoBy result ls classes.old members.old pool.old
        classes.new members.new pool.new }
{
    let class_rows = classes.len();
    let member_rows = members.len();
    match write_classes(text, classes, pool) {
        Ok(Classes { count, end }) => {
            match fill_members(text, &classes[..count], members, pool, end) {
                Ok(Filled { fates, end: names }) => accepted(fates, names),
                Err(FillError::Faulty(fault)) => Err(LoadError::Faulty(fault)),
                Err(FillError::Short(scan)) => refused(scan, class_rows, member_rows),
            }
        }
        Err(ClassesError::FewRows) => refused(scan_all(text), class_rows, member_rows),
        Err(ClassesError::ShortPool) => refused(scan_all(text), class_rows, member_rows),
    }
}
