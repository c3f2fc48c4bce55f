//! Reads a source line by line.
ghost use Rattle.std.specs.Prelude.{◌≡◌, ◌≤◌, ◌++◌, ◌∷◌, [], ℕ, List, true, false, length, IfOk, OnOk, OnErr, MatchOption, MatchResult};
ghost use Rattle.std.specs.Io.KnownBytes.{Keeps, Consumes, IsAtEnd};
ghost use Rattle.gate_outside.specs.Causes.{HasCause, FaultHasCause};
ghost use Rattle.file_lines.specs.Lines.{IsPiece};
ghost use Rattle.file_lines.specs.Reads.{LineIsRead, ReadsNoFurther, LineGrows, Fills};

use crate::ahead::Ahead;
use gate_outside::faults::{Failed, Fault};
use gate_outside::streams::Source;
use memchr::memchr;
use std::alloc::{AllocError, Global};
use std::marker::Model;

/// A reader of lines: the line that it read last, and the bytes that it read ahead.
#[derive(Drop)]
pub struct LineReader {
    line: Vec<u8>,
    ahead: Ahead,
}

impl Model for LineReader {
    ghost use Rattle.file_lines.specs.Reads.{HeldBytes};

    ghost Value = { HeldBytes };

    ghost view = { λ r. record { line = r.line.items; ahead = r.ahead } };
}

// The bytes before the first line feed, and those after it. `None` without a line feed.
fn first_line(bytes: &[u8]) -> Option<(&[u8], &[u8])>
    ensures { MatchOption result (IsPiece bytes.now) (λ parts. IsPiece parts.0.now × (bytes.now ≡ parts.0.now ++ 10 ∷ parts.1.now)) }
{
    let at = memchr(b'\n', bytes)?;
    Some((&bytes[..at], &bytes[at + 1..]))
}

impl LineReader {
    /// A reader that has read nothing.
    pub fn new(alloc: Global) -> Result<LineReader, AllocError>
        ensures { IfOk result (λ r. (r.line ≡ []) × (r.ahead ≡ [])) }
    {
        Ok(LineReader {
            line: Vec::new(alloc),
            ahead: Ahead::new(alloc)?,
        })
    }

    /// The line that was read last, without its line feed.
    pub fn line(&self) -> &[u8]
        ensures { result.now ≡ self.now.line }
    {
        self.line.as_slice()
    }

    // Begins a line.
    fn begin(&mut self)
        ensures line { self.new.line ≡ [] }
        ensures ahead { self.new.ahead ≡ self.old.ahead }
    {
        self.line.clear();
    }

    // Reads once if no byte is ahead. Whether a byte is ahead then; if not, the source has ended.
    fn fill<S: Source>(&mut self, source: &mut S) -> Result<bool, Failed>
        ensures line { self.new.line ≡ self.old.line }
        ensures reads { Fills (S.left source.old) (S.left source.new) self.old.ahead self.new.ahead result }
        ensures cause { HasCause (S.faults source.old) (S.faults source.new) result }
    {
        if !self.ahead.bytes().is_empty() {
            return Ok(true);
        }
        self.ahead.fill(source)?;
        Ok(!self.ahead.bytes().is_empty())
    }

    // Moves bytes that are ahead to the line, up to the first line feed. Whether the line has ended
    // there, or is longer than `most` bytes.
    fn grow(&mut self, most: usize) -> Result<bool, AllocError>
        ensures { IfOk result (λ ended. LineGrows most self.old self.new ended) }
    {
        match first_line(self.ahead.bytes()) {
            Some((piece, later)) => {
                self.line.extend_from_slice(piece)?;
                let left = later.len();
                self.ahead.keep_last(left);
                Ok(true)
            }
            None => {
                self.line.extend_from_slice(self.ahead.bytes())?;
                self.ahead.keep_last(0);
                Ok(self.line.len() > most)
            }
        }
    }

    /// Reads up to the next line feed, and no further than the read that brings it. `true` if a line
    /// feed ended the line, or the line has more than `most` bytes so far. `false` at the end of the
    /// source: the line is then what follows the last line feed, and may be empty.
    ///
    /// # Errors
    /// `Failed` exactly if the source failed, and `Memory`.
    pub fn read<S: Source>(&mut self, source: &mut S, most: usize) -> Result<bool, Fault>
        ensures read { (more : List ℕ) × Consumes (S.left source.old) (S.left source.new) more × ReadsNoFurther self.old.ahead more × LineIsRead most (S.left source.new) (self.old.ahead ++ more) self.new result }
        ensures cause { FaultHasCause (S.faults source.old) (S.faults source.new) result }
    {
        self.begin();
        while self.fill(source)? {
            if self.grow(most)? {
                return Ok(true);
            }
        }
        Ok(false)
    }
}
