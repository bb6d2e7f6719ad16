// "Raw line and display line are two numberings": each has a type of its own, and a number of one is made a number of the other here alone.
ghost use Rattle.std.specs.Prelude.{◌≡◌};
ghost use Rattle.ground.specs.Choice.{within};
ghost use Rattle.name_lines.specs.LineNames.{holds_line, line_name};

use table_rows::Ranges;

#[derive(Clone, Copy)]
pub struct RawLine(pub u32);

#[derive(Clone, Copy)]
pub struct DisplayLine(pub u32);

// Whether a range holds a line.
fn in_range(start: u32, end: u32, line: u32) -> bool
    ensures { result ≡ within start «end» line }
{
    if line < start {
        return false;
    }
    line <= end
}

// Whether the raw range of a method holds a line.
pub fn holds_line(ranges: Ranges, line: RawLine) -> bool
    ensures { result ≡ holds_line ranges line }
{
    match ranges {
        Ranges::None => false,
        Ranges::Display { start: _, end: _ } => false,
        Ranges::Both {
            raw_start,
            raw_end,
            start: _,
            end: _,
        } => in_range(raw_start, raw_end, line.0),
    }
}

// The display line of a raw line, if the raw range of the method holds it.
pub fn translated(ranges: Ranges, line: RawLine) -> Option<DisplayLine>
    ensures { result ≡ line_name ranges line }
{
    match ranges {
        Ranges::None => None,
        Ranges::Display { start: _, end: _ } => None,
        Ranges::Both {
            raw_start,
            raw_end,
            start,
            end,
        } => {
            if !in_range(raw_start, raw_end, line.0) {
                return None;
            }
            let past = (line.0 - raw_start).min(end.saturating_sub(start));
            Some(DisplayLine(start + past))
        }
    }
}
