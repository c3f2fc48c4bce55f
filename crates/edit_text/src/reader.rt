//! Reads a step file line by line.

ghost use Rattle.std.specs.Prelude.{◌≡◌, ◌⊎◌};
ghost use Rattle.edit_fields.specs.Fault.{UnlessMemory};
ghost use Rattle.edit_text.specs.Lines.{line_of, reader_after};
ghost use Rattle.edit_text.specs.Reader.{first_reader};

use crate::reader_state::ReaderState;
use crate::{FileKind, Line, LineFault};
use json_view::Scratch;
use std::alloc::Global;
use std::marker::Model;

/// A reader of a step file: what it keeps between lines, and the memory that reading takes.
#[derive(Drop)]
pub struct StepReader {
    state: ReaderState,
    scratch: Scratch,
}

impl Model for StepReader {
    ghost use Rattle.edit_text.specs.declared.reader_state.ReaderState.{ReaderState};

    ghost Value = { ReaderState };

    ghost view = { λ r. r.state };
}

impl StepReader {
    /// A reader before the first line of a file.
    pub fn new(alloc: Global, kind: FileKind) -> StepReader
        ensures { result ≡ first_reader kind }
    {
        StepReader {
            state: ReaderState::new(alloc, kind),
            scratch: Scratch::new(alloc),
        }
    }

    /// How many lines were read, with the last one also if it was refused. One line more than a
    /// file may have is counted, and none after it.
    pub fn lines(&self) -> u64
        ensures { result ≡ self.now.lines }
    {
        self.state.lines()
    }

    /// Reads the next line of the file, without its line feed. A blank line gives `None`. A refused
    /// line is counted, and changes nothing else. If memory runs out, nothing changes.
    ///
    /// A caller that gathers a line may stop after [`crate::MAX_LINE_BYTES`] and one byte.
    pub fn line(&mut self, alloc: Global, bytes: &[u8]) -> Result<Option<Line>, LineFault>
        ensures line { UnlessMemory result (line_of self.old bytes.now) }
        ensures after { (result ≡ Err LineFault.Memory) ⊎ (self.new ≡ reader_after self.old bytes.now) }
        ensures memory { result ≡ Err LineFault.Memory → self.new ≡ self.old }
    {
        self.state.line(alloc, bytes, &mut self.scratch)
    }
}
