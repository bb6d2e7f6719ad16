// The lines of a text, from a place on. What a line is says `next_line`, which takes a plain slice.
ghost use Rattle.std.specs.Prelude.{◌≡◌};
ghost use Rattle.text_places.specs.Inner.NextLine.{next_line};

use text_places::{NextLine, next_line};

// A text, and the place in it where the following line starts.
#[derive(Clone, Copy)]
pub struct Lines<'a> {
    pub text: &'a [u8],
    pub at: usize,
}

// A text from its start on.
pub fn lines_of<'a>(text: &'a [u8]) -> Lines<'a>
    ensures { (result.text ≡ text.entry) × (result.at ≡ 0) }
{
    Lines { text, at: 0 }
}

// The line at the reader's place.
pub fn line<'a>(reader: Lines<'a>) -> Option<NextLine>
    ensures { result ≡ next_line reader.entry.text.now reader.entry.at }
{
    next_line(reader.text, reader.at)
}

// The same text at another place.
pub fn moved<'a>(reader: Lines<'a>, at: usize) -> Lines<'a>
    ensures { (result.text ≡ reader.entry.text) × (result.at ≡ at) }
{
    Lines {
        text: reader.text,
        at,
    }
}
