// The display line of a source line, by the number of its line context.
ghost use Rattle.std.specs.Prelude.{◌≡◌, length};
ghost use Rattle.name_lines.specs.LineNames.{raw_line};
ghost use Rattle.name_index.specs.Inner.Chains.{Chained};
ghost use Rattle.apply_members.specs.Inner.Notes.{MeantBy, line_by};

use name_index::line_by_row;
use name_lines::{DisplayLine, RawLine};
use table_rows::{ClassRow, MemberRow};

// What the mapping says of a raw line.
pub fn context_line(
    chains: &[u16],
    classes: &[ClassRow],
    members: &[MemberRow],
    pool: &[u8],
    home: usize,
    context: u32,
    raw: u32,
) -> Option<DisplayLine>
    requires { Chained classes.now pool.now members.now chains.now (length members.now)
        × MeantBy classes.now members.now pool.now home context }
    ensures { result ≡ line_by classes.now members.now pool.now home context (raw_line raw) }
{
    if context == 0 {
        return None;
    }
    let row = context as usize - 1;
    line_by_row(chains, classes, members, pool, home, row, RawLine(raw))
}
