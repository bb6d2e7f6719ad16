// Parts of a text.
ghost use Rattle.std.specs.Prelude.{◌≡◌};
ghost use Rattle.text_places.specs.Spans.{shift, Lies, largest};

// A part of a text: where it starts and where it ends.
#[derive(Clone, Copy)]
pub struct Span {
    pub start: usize,
    pub end: usize,
}

// A part of what starts at the place `by`.
pub fn shifted(by: usize, part: Span) -> Span
    requires { Lies (shift by part) largest }
    ensures { result ≡ shift by part }
{
    Span {
        start: by + part.start,
        end: by + part.end,
    }
}
