// All class lines of a text, one after the other.
ghost use Rattle.std.specs.Prelude.{◌≤◌, length};
ghost use Rattle.text_places.specs.Lines.{lines};
ghost use Rattle.load_classes.specs.Inner.Written.{ClassesBy};
ghost use Rattle.table_rows.specs.Rows.{most_classes, most_pool};

use crate::entry::enter_class;
use crate::names::{class_line, opens_no_class};
use table_pool::NoRoom;
use table_rows::ClassRow;
use text_places::{NextLine, next_line, next_start};

#[derive(Clone, Copy)]
pub struct Classes {
    pub count: usize,
    pub end: usize,
}

// What is lent is too little.
#[derive(Clone, Copy)]
pub enum ClassesError {
    FewRows,
    ShortPool,
}

// The class rows of a text, and their descriptors from the start of the pool on.
pub fn write_classes(
    text: &[u8],
    classes: &mut [ClassRow],
    pool: &mut [u8],
) -> Result<Classes, ClassesError>
    requires { (length classes.old ≤ most_classes) × (length pool.old ≤ most_pool) }
    ensures { let ls = lines text.now in
        ClassesBy result ls classes.old pool.old classes.new pool.new }
{
    let mut at = 0;
    let mut count = 0;
    let mut end = 0;
    while at < text.len() {
        if opens_no_class(text[at]) {
            at = next_start(text, at);
            continue;
        }
        let Some(
            NextLine {
                start,
                end: stop,
                next,
            },
        ) = next_line(text, at)
        else {
            return Ok(Classes { count, end });
        };
        let line = &text[start..stop];
        let Some(names) = class_line(line) else {
            at = next;
            continue;
        };
        if classes.len() <= count {
            return Err(ClassesError::FewRows);
        }
        let Ok(after) = enter_class(classes, pool, count, end, line, names) else {
            return Err(ClassesError::ShortPool);
        };
        at = next;
        count += 1;
        end = after;
    }
    Ok(Classes { count, end })
}
