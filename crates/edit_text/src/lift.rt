//! Turns a line into the newest version of its step.

ghost use Rattle.std.specs.Prelude.{◌≡◌, ℕ, List, true, Ok, Some};
ghost use Rattle.edit_text.specs.declared.reader_state.ReaderState.{ReaderState};
ghost use Rattle.edit_text.specs.Lines.{line_of, noted};
ghost use Rattle.edit_text.specs.Written.{allows};
ghost use Rattle.edit_text.specs.Lifted.{lifted};

use crate::Line;

impl Line {
    fn newest(self) -> Line
        ensures { result ≡ lifted self }
    {
        let mut line = self;
        if let Line::Bot { v, .. } = &mut line {
            *v = 2;
        }
        line
    }

    /// The line in its newest version: a bot line in version 2, which means the same, and every other
    /// line as it is. A reader that read the line allows this one in its place, and keeps the same.
    pub fn lift(self) -> Line
        ensures lifted { result ≡ lifted self }
        ensures allowed { (reader : ReaderState) (bytes : List ℕ) →
            line_of reader bytes ≡ Ok (Some self) → allows reader result ≡ true }
        ensures kept { (reader : ReaderState) → noted result reader ≡ noted self reader }
    {
        self.newest()
    }
}
