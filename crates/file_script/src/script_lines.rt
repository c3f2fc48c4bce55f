//! The lines of a script's file, one by one.
ghost use Rattle.std.specs.Prelude.{◌≡◌, ◌++◌, [], ℕ, List, IfOk, MatchOption};
ghost use Rattle.std.specs.declared.option.Option.{Option};
ghost use Rattle.std.specs.Io.KnownBytes.{Consumes};
ghost use Rattle.gate_outside.specs.Causes.{FaultHasCause};
ghost use Rattle.edit_text.specs.declared.line.Line.{Line as ALine};
ghost use Rattle.file_script.specs.Reads.{ReadCause, HasGiven, Gives, LineComes, IsParsed, CountsOn};

use crate::fault::ScriptFault;
use edit_text::{FileKind, Line, LineFault, MAX_LINE_BYTES, StepReader};
use file_lines::LineReader;
use gate_outside::faults::Fault;
use gate_outside::streams::Source;
use std::alloc::{AllocError, Global};

/// What is kept of a script's file between its lines.
pub struct ScriptLines {
    alloc: Global,
    lines: LineReader,
    reader: StepReader,
    // Whether the source has come to its end.
    ended: bool,
}

impl Drop for ScriptLines {
    fn drop(self) {
        let ScriptLines {
            alloc: _,
            lines,
            reader,
            ended: _,
        } = self;
        drop(lines);
        drop(reader);
    }
}

impl ScriptLines {
    /// Before the first byte of a file.
    pub fn new(alloc: Global) -> Result<ScriptLines, AllocError>
        ensures given { IfOk result (λ k. (left : Option (List ℕ)) → HasGiven left k [] []) }
    {
        Ok(ScriptLines {
            alloc,
            lines: LineReader::new(alloc)?,
            reader: StepReader::new(alloc, FileKind::Script),
            ended: false,
        })
    }

    // Reads the bytes of the next line. `false` if the file has no further line.
    fn read_line<S: Source>(&mut self, source: &mut S) -> Result<bool, Fault>
        ensures comes { (bytes : List ℕ) (given : List ALine) → HasGiven (S.left source.old) self.old bytes given
            → (more : List ℕ) × Consumes (S.left source.old) (S.left source.new) more × LineComes (S.left source.new) self.new (bytes ++ more) given result }
        ensures reader { self.new.reader ≡ self.old.reader }
        ensures cause { FaultHasCause (S.faults source.old) (S.faults source.new) result }
    {
        if self.ended {
            return Ok(false);
        }
        let fed = self.lines.read(source, MAX_LINE_BYTES)?;
        self.ended = !fed;
        Ok(fed || !self.lines.line().is_empty())
    }

    // What the bytes that were read say.
    fn parse(&mut self) -> Result<Option<Line>, ScriptFault>
        ensures said { IsParsed self.old.reader self.old.lines.line self.new.reader result }
        ensures lines { self.new.lines ≡ self.old.lines }
        ensures ended { self.new.ended ≡ self.old.ended }
    {
        match self.reader.line(self.alloc, self.lines.line()) {
            Ok(said) => Ok(said),
            Err(LineFault::Memory) => Err(ScriptFault::Memory),
            Err(fault) => Err(ScriptFault::Line {
                line: self.reader.lines(),
                fault,
            }),
        }
    }

    /// Reads the next line that is not blank. `None` at the end of the file.
    ///
    /// # Errors
    /// `Read` exactly if the source failed, `Line` for a line that is refused, and `Memory`. No further
    /// line is to be asked for after them.
    pub fn next<S: Source>(&mut self, source: &mut S) -> Result<Option<Line>, ScriptFault>
        ensures gives { (bytes : List ℕ) (given : List ALine) → HasGiven (S.left source.old) self.old bytes given
            → (more : List ℕ) × Consumes (S.left source.old) (S.left source.new) more × Gives (S.left source.new) self.new (bytes ++ more) given result }
        ensures counts { IfOk result (λ said. MatchOption said (Unit {0}) (λ _. CountsOn self.old.reader self.new.reader)) }
        ensures cause { ReadCause (S.faults source.old) (S.faults source.new) result }
    {
        while self.read_line(source)? {
            if let Some(line) = self.parse()? {
                return Ok(Some(line));
            }
        }
        Ok(None)
    }
}
