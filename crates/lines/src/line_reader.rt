// The line reader: a lent text and a place in it. The work is `line_at`'s.
ghost use Rattle.std.specs.Prelude.{◌≡◌};
ghost use Rattle.lines.specs.Lines.{LineOrEnd};

use crate::lines::{Line, line_at};

#[derive(Clone, Copy)]
pub struct LineReader<'a> {
    pub text: &'a [u8],
    pub place: usize,
}

impl<'a> LineReader<'a> {
    // A reader at this place of the text.
    pub fn at(text: &'a [u8], place: usize) -> LineReader<'a>
        ensures { (result.text ≡ text.entry) × (result.place ≡ place) }
    {
        LineReader { text, place }
    }

    // The line that `line_at` finds where the reader stands.
    pub fn line(self) -> Line
        ensures { LineOrEnd self.entry.text.now self.entry.place result }
    {
        line_at(self.text, self.place)
    }
}

// The line that a reader at this place of the text reads.
pub fn line_from(text: &[u8], place: usize) -> Line
    ensures { LineOrEnd text.now place result }
{
    LineReader::at(text, place).line()
}
