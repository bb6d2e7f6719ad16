// All lines of a text: what becomes of each, and its member's row and texts.
ghost use Rattle.std.specs.Prelude.{◌≤◌, length};
ghost use Rattle.text_places.specs.Lines.{lines};
ghost use Rattle.table_rows.specs.Rows.{most_pool};
ghost use Rattle.tables.specs.Back.{read_back};
ghost use Rattle.load_rule.specs.Loading.{most_text};
ghost use Rattle.load_raw_types.specs.Inner.Behind.{Indexed};
ghost use Rattle.load_members.specs.Inner.Filled.{FilledBy};

use crate::enter::{enter_line, first_slot};
use crate::passed::with_passed;
use load_residual::residual_after;
use load_rule::{Fates, Fault};
use load_scan::{Step, counted, next_step, no_fates, scan_from};
use table_rows::{ClassRow, MemberRow};

#[derive(Clone, Copy)]
pub struct Filled {
    pub fates: Fates,
    pub end: usize,
}

#[derive(Clone, Copy)]
pub enum FillError {
    Faulty(Fault),
    // Rows or pool do not hold all members.
    Short(Result<Fates, Fault>),
}

// `classes` are the class rows of the text, whose descriptors stand in the pool before the place `used`.
pub fn write_members(
    text: &[u8],
    classes: &[ClassRow],
    index: &[u16],
    members: &mut [MemberRow],
    pool: &mut [u8],
    used: usize,
) -> Result<Filled, FillError>
    requires { (length text.now ≤ most_text) × (length pool.old ≤ most_pool) × Indexed classes.now pool.old index.now used }
    ensures { let cs = read_back classes.now pool.old in
        FilledBy result (lines text.now) cs used members.old pool.old members.new
        pool.new }
{
    let mut at = 0;
    let mut fates = no_fates();
    let mut member = false;
    let mut slot = first_slot(used);
    while at < text.len() {
        match next_step(text, at, fates.class, member) {
            Step::End => {
                let end = slot.place;
                return Ok(Filled { fates, end });
            }
            Step::Faulty(number) => {
                let line = fates.lines + 1;
                return Err(FillError::Faulty(Fault { number, line }));
            }
            Step::Passed { next, fate } => {
                at = next;
                fates = counted(fates, fate);
            }
            Step::Line(line) => {
                at = line.next;
                let fate = line.fate;
                fates = counted(fates, fate);
                member = line.has_member;
                // Blank lines and comments behind a class line or a member line are read with it.
                let looked = residual_after(&text[at..], member);
                let given = looked.residual;
                let next = enter_line(members, pool, text, line, given, slot, classes, index);
                let Ok(after) = next else {
                    return Err(FillError::Short(scan_from(text, at, fates, member)));
                };
                slot = after;
                let passed = looked.passed;
                at += passed.bytes;
                fates = with_passed(fates, passed);
            }
        }
    }
    let end = slot.place;
    Ok(Filled { fates, end })
}
