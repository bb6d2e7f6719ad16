// One case after another.
ghost use Rattle.std.specs.Prelude.{length};

use crate::documents::{case_from, document_end};
use crate::say::{case_name, words};
use std::io;
use text_places::NextLine;

// Goes over the cases of a text: of each its name is written, and then what `answer` makes of its document.
pub fn each_case<F: Fn(&[u8]) -> io::Result<()>>(
    rt: &impl Print,
    s: &[u8],
    answer: F,
) -> io::Result<()>
    requires { F.IsAlwaysCallable answer }
{
    let mut at = case_from(s, 0);
    while at < s.len() {
        let Some(
            NextLine {
                start: _,
                end,
                next: start,
            },
        ) = text_places::next_line(s, at)
        else {
            return Ok(());
        };
        let next = case_from(s, start);
        let stop = document_end(s, start, next);
        case_name(rt, &s[at..end])?;
        words(rt, b": ")?;
        answer(&s[start..stop])?;
        at = next;
    }
    Ok(())
}
