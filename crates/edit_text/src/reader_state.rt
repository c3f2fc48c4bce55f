//! What a line is after the lines before it, and what is kept of it.

ghost use Rattle.std.specs.Prelude.{◌≡◌, ◌⊎◌, OnOk, OnErr};
ghost use Rattle.json_view.specs.Nodes.{view};
ghost use Rattle.edit_fields.specs.Fault.{UnlessMemory};
ghost use Rattle.edit_text.specs.Lines.{with_guild, is_run, is_edit, is_allowed, step_of, line_from, object_line_from, is_blank, is_too_long, line_of, noted, counted, reader_after};
ghost use Rattle.edit_text.specs.Reader.{first_reader};

use crate::step_name::StepName;
use crate::steps::{fields_from, has_id};
use crate::{FileKind, Line, LineFault};
use collections::Seq;
use edit_fields::fields::text_at;
use json_view::{Node, Scratch, is_object, node_of};
use snowflake_id::Snowflake;
use std::alloc::{AllocError, Global};

/// The most bytes that a line may have, without its line feed.
pub const MAX_LINE_BYTES: usize = 65_536;

/// The most lines that a file may have.
pub const MAX_LINES: u64 = 1_000_000;

/// What a reader of a file keeps between lines.
#[derive(Drop)]
pub struct ReaderState {
    kind: FileKind,
    // How many lines were read.
    lines: u64,
    // Whether one of them was not a head line.
    stepped: bool,
    // The guilds of the head lines, each once.
    guilds: Seq<Snowflake>,
}

impl ReaderState {
    /// A reader before the first line of a file.
    pub fn new(alloc: Global, kind: FileKind) -> ReaderState
        ensures { result ≡ first_reader kind }
    {
        ReaderState {
            kind,
            lines: 0,
            stepped: false,
            guilds: Seq::new(alloc),
        }
    }

    /// How many lines were read.
    pub fn lines(&self) -> u64
        ensures { result ≡ self.now.lines }
    {
        self.lines
    }

    fn is_allowed(&self, name: StepName) -> bool
        ensures { result ≡ is_allowed self.now name }
    {
        if name.is_head() {
            return !self.stepped;
        }
        matches!(self.kind, FileKind::Run) || matches!(name, StepName::Edit)
    }

    fn step_of(&self, text: &str) -> Option<StepName>
        ensures { result ≡ step_of self.now text.now }
    {
        match StepName::of(text) {
            None => None,
            Some(name) => {
                if self.is_allowed(name) {
                    Some(name)
                } else {
                    None
                }
            }
        }
    }

    fn line_from(&self, alloc: Global, object: &Node<'_>) -> Result<Line, LineFault>
        ensures { UnlessMemory result (line_from self.now (view object.now)) }
    {
        let text = text_at(object, "step")?;
        let Some(step) = self.step_of(text) else {
            return Err(LineFault::NoSuchStep);
        };
        fields_from(alloc, self.guilds.as_slice(), step, object)
    }

    fn object_line_from(&self, alloc: Global, value: &Node<'_>) -> Result<Line, LineFault>
        ensures { UnlessMemory result (object_line_from self.now (view value.now)) }
    {
        if !is_object(value) {
            return Err(LineFault::WrongType);
        }
        self.line_from(alloc, value)
    }

    fn is_too_long(&self, bytes: &[u8]) -> bool
        ensures { result ≡ is_too_long self.now bytes.now }
    {
        bytes.len() > MAX_LINE_BYTES || !(self.lines < MAX_LINES)
    }

    #[tactic(auto, unfolding(crate::specs::Lines::line_of))]
    fn read(
        &self,
        alloc: Global,
        bytes: &[u8],
        scratch: &mut Scratch,
    ) -> Result<Option<Line>, LineFault>
        ensures { UnlessMemory result (line_of self.now bytes.now) }
    {
        if self.is_too_long(bytes) {
            return Err(LineFault::TooLong);
        }
        if is_blank(bytes) {
            return Ok(None);
        }
        let Some(value) = node_of(alloc, bytes, scratch)? else {
            return Err(LineFault::NotJson);
        };
        let line = self.object_line_from(alloc, &value)?;
        Ok(Some(line))
    }

    fn add_guild(&mut self, id: Snowflake) -> Result<(), AllocError>
        ensures ok { OnOk result
            (self.new ≡ record self.old { guilds = with_guild id self.old.guilds }) }
        ensures err { OnErr result (self.new ≡ self.old) }
    {
        if has_id(self.guilds.as_slice(), id) {
            return Ok(());
        }
        self.guilds.push(id)
    }

    fn note(&mut self, line: &Line) -> Result<(), AllocError>
        ensures ok { OnOk result (self.new ≡ noted line.now self.old) }
        ensures err { OnErr result (self.new ≡ self.old) }
    {
        match line {
            Line::Bot { .. } => Ok(()),
            Line::Guild { id } => self.add_guild(*id),
            _ => {
                self.stepped = true;
                Ok(())
            }
        }
    }

    fn count(&mut self)
        ensures { self.new ≡ counted self.old }
    {
        if self.lines <= MAX_LINES {
            self.lines += 1;
        }
    }

    /// Reads the next line of the file, without its line feed.
    pub fn line(
        &mut self,
        alloc: Global,
        bytes: &[u8],
        scratch: &mut Scratch,
    ) -> Result<Option<Line>, LineFault>
        ensures line { UnlessMemory result (line_of self.old bytes.now) }
        ensures after { (result ≡ Err LineFault.Memory) ⊎ (self.new ≡ reader_after self.old bytes.now) }
        ensures memory { result ≡ Err LineFault.Memory → self.new ≡ self.old }
    {
        match self.read(alloc, bytes, scratch) {
            Err(LineFault::Memory) => Err(LineFault::Memory),
            Err(fault) => {
                self.count();
                Err(fault)
            }
            Ok(None) => {
                self.count();
                Ok(None)
            }
            Ok(Some(line)) => {
                let Ok(()) = self.note(&line) else {
                    drop(line);
                    return Err(LineFault::Memory);
                };
                self.count();
                Ok(Some(line))
            }
        }
    }
}

// Whether a line has only spaces, tabs and carriage returns.
fn is_blank(bytes: &[u8]) -> bool
    ensures { result ≡ is_blank bytes.now }
{
    bytes
        .iter()
        .all(|byte| *byte == b' ' || *byte == b'\t' || *byte == b'\r')
}
