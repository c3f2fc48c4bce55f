//! Lifts a file line by line.
ghost use Rattle.std.specs.Prelude.{◌≡◌, ◌++◌, [], ℕ, List, Ok, IfOk};
ghost use Rattle.std.specs.Io.KnownBytes.{Consumes};
ghost use Rattle.edit_text.specs.Reader.{first_reader};
ghost use Rattle.file_lift.specs.Lifting.{IsRead, ReadCause, IsParsed, GivesText, LiftsLine, WriteCause};

use crate::fault::LiftFault;
use crate::writing::{text_of, write_line, write_stop};
use edit_text::{FileKind, Line, LineFault, MAX_LINE_BYTES, StepReader};
use file_lines::LineReader;
use gate_outside::faults::Fault;
use gate_outside::streams::{Sink, Source};
use std::alloc::{AllocError, Global};

/// What is kept of a file between its lines.
#[derive(Drop)]
pub struct Lifter {
    alloc: Global,
    lines: LineReader,
    reader: StepReader,
}

impl Lifter {
    /// Before the first byte of a file.
    pub fn new(alloc: Global) -> Result<Lifter, AllocError>
        ensures ahead { IfOk result (λ k. k.lines.ahead ≡ []) }
        ensures reader { IfOk result (λ k. k.reader ≡ first_reader FileKind.Run) }
    {
        Ok(Lifter {
            alloc,
            lines: LineReader::new(alloc)?,
            reader: StepReader::new(alloc, FileKind::Run),
        })
    }

    /// Reads the bytes of the next line. `false` at the end of the source, where the last line may have none.
    pub fn read_line<S: Source>(&mut self, source: &mut S) -> Result<bool, LiftFault>
        ensures read { (more : List ℕ) × Consumes (S.left source.old) (S.left source.new) more × IsRead (S.left source.new) (self.old.lines.ahead ++ more) self.new.lines result }
        ensures reader { self.new.reader ≡ self.old.reader }
        ensures cause { ReadCause (S.faults source.old) (S.faults source.new) result }
    {
        match self.lines.read(source, MAX_LINE_BYTES) {
            Ok(fed) => Ok(fed),
            Err(Fault::Failed) => Err(LiftFault::Read),
            Err(Fault::Memory) => Err(LiftFault::Memory),
        }
    }

    // What the line that was read says.
    fn parse(&mut self) -> Result<Option<Line>, LiftFault>
        ensures said { IsParsed self.old.reader self.old.lines.line self.new.reader result }
        ensures lines { self.new.lines ≡ self.old.lines }
    {
        match self.reader.line(self.alloc, self.lines.line()) {
            Ok(said) => Ok(said),
            Err(LineFault::Memory) => Err(LiftFault::Memory),
            Err(fault) => Err(LiftFault::Line {
                line: self.reader.lines(),
                fault,
            }),
        }
    }

    // The text of what the line says, in its newest version.
    fn text(&mut self) -> Result<String, LiftFault>
        ensures text { GivesText self.old.reader self.old.lines.line self.new.reader result }
        ensures lines { self.new.lines ≡ self.old.lines }
    {
        let said = self.parse()?;
        let text = text_of(self.alloc, said)?;
        if text.as_bytes().len() > MAX_LINE_BYTES {
            return Err(LiftFault::Line {
                line: self.reader.lines(),
                fault: LineFault::TooLong,
            });
        }
        Ok(text)
    }

    /// Writes the line that was read in its newest version, or the line that says why it is refused.
    pub fn lift_line<K: Sink>(&mut self, sink: &mut K) -> Result<(), LiftFault>
        ensures lifts { LiftsLine self.old.reader self.old.lines.line self.new.reader
            (K.got sink.old) (K.got sink.new) (K.waits sink.old) (K.waits sink.new) result }
        ensures lines { self.new.lines ≡ self.old.lines }
        ensures cause { WriteCause (K.faults sink.old) (K.faults sink.new) result }
    {
        match self.text() {
            Ok(text) => {
                write_line(sink, text)?;
                Ok(())
            }
            Err(LiftFault::Memory) => Err(LiftFault::Memory),
            Err(LiftFault::Line { line, fault }) => {
                write_stop(self.alloc, sink, line, fault)?;
                Err(LiftFault::Line { line, fault })
            }
            Err(fault) => Err(fault),
        }
    }

    /// The same of the last line, which may have no byte: then there is none.
    pub fn lift_last<K: Sink>(&mut self, sink: &mut K) -> Result<(), LiftFault>
        ensures none { self.old.lines.line ≡ [] → (result ≡ Ok tt) × (K.got sink.new ≡ K.got sink.old) × (K.waits sink.new ≡ K.waits sink.old) }
        ensures some { ¬ (self.old.lines.line ≡ []) → LiftsLine self.old.reader self.old.lines.line self.new.reader
            (K.got sink.old) (K.got sink.new) (K.waits sink.old) (K.waits sink.new) result }
        ensures cause { WriteCause (K.faults sink.old) (K.faults sink.new) result }
    {
        if self.lines.line().is_empty() {
            return Ok(());
        }
        self.lift_line(sink)
    }
}
