// The line reader: it is lent a text and remembers where its line starts. The readers of programs and goals call `line_at`.
#![tactic(auto)]

ghost use Rattle.std.specs.Prelude.{◌≡◌, ◌≤◌, ◌<◌, length};
ghost use Rattle.text.specs.Cursors.{class_table};
ghost use Rattle.text.specs.Splits.{SplitAt};

use text::Class;
use text::fields::{Fields, split};

// A lent text, and where a line of it starts.
#[derive(Clone, Copy)]
pub struct LineReader<'a> {
    pub text: &'a [u8],
    pub start: usize,
}

impl<'a> LineReader<'a> {
    // The reader of the line that starts at `start`.
    pub fn new(text: &'a [u8], start: usize) -> LineReader<'a>
        ensures { (result.text ≡ text.entry) × (result.start ≡ start) }
    {
        LineReader { text, start }
    }

    // The reader's line, split into its fields.
    pub fn line(self, classes: &[Class]) -> Fields
        requires { (classes.now ≡ class_table) × (self.start < length self.text.now)
            × (length self.text.now ≤ 16384) }
        ensures { SplitAt self.entry.text.now self.entry.start result }
    {
        split(classes, self.text, self.start)
    }
}

// The line of a text that starts at `start`, split into its fields.
pub fn line_at(classes: &[Class], text: &[u8], start: usize) -> Fields
    requires { (classes.now ≡ class_table) × (start < length text.now) × (length text.now ≤ 16384) }
    ensures { SplitAt text.now start result }
{
    LineReader::new(text, start).line(classes)
}
